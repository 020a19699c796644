// What the reader of lines gives.
use inspection::class::DefectClass;
use std::test::Fail;
use texts::lines::{Item, Lines};
use worksheet::defect::Defect;

const SHEET: &[u8] = b"12\t3\tC\nno tab\n\t\t\n7\t8\tN";

#[test]
fn items_put_together_are_the_sheet(rt: HostRuntime) -> Result<(), Fail> {
    let mut together = Vec::new(rt.alloc());
    let mut lines = Vec::new(rt.alloc());
    for item in Lines::new(SHEET) {
        lines.push(item.line())?;
        match item {
            Item::Fields { first, rest, .. } => {
                together.extend_from_slice(first)?;
                together.push(b'\t')?;
                together.extend_from_slice(rest)?;
            }
            Item::Bare { text, .. } => together.extend_from_slice(text)?,
        }
    }
    assert!(rt; together.as_slice() == SHEET);
    assert!(rt; lines.as_slice() == [1, 2, 3, 4].as_slice());
    Ok(())
}

#[test]
fn a_line_of_form_says_its_defect(rt: HostRuntime) {
    let expected = Defect {
        unit: 12,
        cause: 3,
        class: DefectClass::Critical,
    };
    for item in Lines::new(SHEET) {
        assert_eq!(rt;
            Defect::of_item(&item),
            (item.line() == 1).then_some(expected)
        );
    }
}
