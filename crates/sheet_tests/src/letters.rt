// Letters, both ways, and the numbers of refusals.
use inspection::class::DefectClass;
use inspection::kind::Kind;
use inspection::letter::UnknownLetter;
use inspection::refusal::{Place, Refusal};
use inspection::status::Status;
use inspection::verdict::Verdict;
use std::test::Fail;

#[test]
fn letters_read_back(rt: HostRuntime) -> Result<(), Fail> {
    for letter in ['N', 'T', 'R'] {
        assert_eq!(rt; char::from(Status::try_from(letter)?), letter);
    }
    for letter in ['A', 'R', 'W', 'F', 'B', '-'] {
        assert_eq!(rt; char::from(Verdict::try_from(letter)?), letter);
    }
    for letter in ['O', 'P', 'E', 'L', 'S', 'G', 'I', 'X'] {
        assert_eq!(rt; char::from(Kind::try_from(letter)?), letter);
    }
    for letter in ['C', 'M', 'N'] {
        assert_eq!(rt; char::from(DefectClass::try_from(letter)?), letter);
    }
    assert_eq!(rt; Status::try_from('n'), Err(UnknownLetter { letter: 'n' }));
    assert_eq!(rt; Verdict::try_from(' '), Err(UnknownLetter { letter: ' ' }));
    assert_eq!(rt; Kind::try_from('C'), Err(UnknownLetter { letter: 'C' }));
    assert_eq!(rt;
        DefectClass::try_from('Ñ'),
        Err(UnknownLetter { letter: 'Ñ' })
    );
    Ok(())
}

#[test]
fn refusals_are_told_by_number_and_place(rt: HostRuntime) -> Result<(), Fail> {
    let above = Refusal::UnitAboveSample { line: 7 };
    assert_eq!(rt; above.notice().number, 12);
    assert_eq!(rt; above.notice().place, Some(Place::SheetLine(7)));
    assert!(rt;
        format!(in rt.alloc(); "{above}")?.as_str()
            == "refused 12, line 7 of the sheet: its unit is above the sample"
    );
    let room = Refusal::NoRoom;
    assert_eq!(rt; room.notice().number, 41);
    assert_eq!(rt; room.notice().place, None);
    assert!(rt; format!(in rt.alloc(); "{room}")?.as_str() == "refused 41: the book has no room");
    Ok(())
}
