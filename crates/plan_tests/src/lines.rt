// What the reader of lines gives of a plan text.
use std::test::Fail;
use texts::lines::{Item, Lines};

const TEXT: &[u8] = b"L\tN\t10\nno tab\n\t\t\nM\t20";

#[test]
fn items_put_together_are_the_text(rt: HostRuntime) -> Result<(), Fail> {
    let mut together = Vec::new(rt.alloc());
    for item in Lines::new(TEXT) {
        match item {
            Item::Fields { first, rest, .. } => {
                together.extend_from_slice(first)?;
                together.push(b'\t')?;
                together.extend_from_slice(rest)?;
            }
            Item::Bare { text, .. } => together.extend_from_slice(text)?,
        }
    }
    let lines: Vec<usize> = Lines::new(TEXT)
        .map(|item| item.line())
        .collect(rt.alloc())?;
    assert!(rt; together.as_slice() == TEXT);
    assert!(rt; lines.as_slice() == [1, 2, 3, 4].as_slice());
    Ok(())
}
