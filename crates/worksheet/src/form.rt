// A line of form: unit, tab, cause, tab, class, line feed.
ghost use Rattle.std.specs.Prelude.{◌≡◌};
ghost use Rattle.texts.specs.Pieces.{shown};
ghost use Rattle.worksheet.specs.Defects.{unit_of, tail_of, defect_of};

use crate::defect::Defect;
use decimals::read_digits;
use inspection::class::DefectClass;
use texts::lines::Item;

// A unit's number, in one to four digits without leading zero.
fn read_unit(field: &[u8]) -> Option<u16>
    ensures { result ≡ unit_of field.now }
{
    let [first, ..] = field else {
        return None;
    };
    if *first <= b'0' || field.len() > 4 {
        return None;
    }
    Some(read_digits(field)? as u16)
}

// The cause and the class that follow the unit.
fn read_tail(rest: &[u8]) -> Option<(u8, DefectClass)>
    ensures { result ≡ tail_of rest.now }
{
    let [cause @ b'1'..=b'9', b'\t', class, b'\n'] = rest else {
        return None;
    };
    let class = DefectClass::try_from(char::from(*class)).ok()?;
    Some((*cause - b'0', class))
}

impl Defect {
    // What a line of the sheet says, if it is of form.
    pub fn of_item(item: &Item<'_>) -> Option<Defect>
        ensures { result ≡ defect_of (shown item.now) }
    {
        match *item {
            Item::Fields { first, rest, .. } => {
                let unit = read_unit(first)?;
                let (cause, class) = read_tail(rest)?;
                Some(Defect { unit, cause, class })
            }
            Item::Bare { .. } => None,
        }
    }
}
