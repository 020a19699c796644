// What a line of a plan text says.
ghost use Rattle.std.specs.Prelude.{◌≡◌, ℕ, List, Some, None, MatchOption};
ghost use Rattle.texts.specs.Pieces.{shown};
ghost use Rattle.plan_texts.specs.RowLines.{Taken, number_to, three_to, class_to, each_to, lot_row_in, limit_row_in, lot_in, row_of};

use crate::row::Row;
use decimals::read_number;
use inspection::class::PerClass;
use inspection::status::Status;
use plans::rows::{ClassNumbers, LimitRow, LotRow};
use texts::bytes::position;
use texts::lines::Item;

// What a line says between tabs, read off the front of the bytes up to the next `end`.
trait Field: Copy {
    ghost said_to: { ℕ → List ℕ → Taken Self };

    // What is said, and what follows the end.
    fn take(bytes: &[u8], end: u8) -> Option<(Self, &[u8])>
        ensures { MatchOption result (said_to end bytes.now ≡ None) (λ p. said_to end bytes.now ≡ Some (p.0, p.1.now)) };
}

impl Field for u32 {
    ghost said_to = { number_to };

    #[tactic(auto, using(crate::proofs::Fields::no_end, crate::proofs::Fields::no_number, crate::proofs::Fields::one_number))]
    fn take(bytes: &[u8], end: u8) -> Option<(u32, &[u8])> {
        let at = position(bytes, end)?;
        let number = read_number(&bytes[..at])?;
        Some((number, &bytes[at + 1..]))
    }
}

// Three fields of one kind, the first two up to a tab and the last up to the end.
#[tactic(auto, unfolding(crate::specs::RowLines::three_to))]
fn take_three<T: Field>(bytes: &[u8], end: u8) -> Option<((T, T, T), &[u8])>
    ensures { MatchOption result (three_to T.said_to end bytes.now ≡ None) (λ p. three_to T.said_to end bytes.now ≡ Some (p.0, p.1.now)) }
{
    let (first, rest) = T::take(bytes, b'\t')?;
    let (second, rest) = T::take(rest, b'\t')?;
    let (third, rest) = T::take(rest, end)?;
    Some(((first, second, third), rest))
}

impl Field for ClassNumbers {
    ghost said_to = { class_to };

    #[tactic(auto, unfolding(crate::specs::RowLines::class_to))]
    fn take(bytes: &[u8], end: u8) -> Option<(ClassNumbers, &[u8])> {
        let ((accept_first, reject_first, accept_both), rest) = take_three(bytes, end)?;
        let numbers = ClassNumbers {
            accept_first,
            reject_first,
            accept_both,
        };
        Some((numbers, rest))
    }
}

impl<T: Field> Field for PerClass<T> {
    ghost said_to = { each_to T.said_to };

    #[tactic(auto, unfolding(crate::specs::RowLines::each_to))]
    fn take(bytes: &[u8], end: u8) -> Option<(PerClass<T>, &[u8])> {
        let ((critical, major, total), rest) = take_three(bytes, end)?;
        let each = PerClass {
            critical,
            major,
            total,
        };
        Some((each, rest))
    }
}

// What follows the status of a lot row.
#[tactic(auto, using(crate::proofs::Fields::at_end_then), unfolding(crate::specs::RowLines::lot_row_in))]
fn read_lot_row(status: Status, bytes: &[u8]) -> Option<LotRow>
    ensures { result ≡ lot_row_in status bytes.now }
{
    let (lowest_size, rest) = u32::take(bytes, b'\t')?;
    let (first_sample, rest) = u32::take(rest, b'\t')?;
    let (total_sample, rest) = u32::take(rest, b'\t')?;
    let (numbers, rest) = PerClass::take(rest, b'\n')?;
    rest.is_empty().then_some(LotRow {
        status,
        lowest_size,
        first_sample,
        total_sample,
        numbers,
    })
}

// What follows the kind of a limit row.
#[tactic(auto, unfolding(crate::specs::RowLines::limit_row_in))]
fn read_limit_row(bytes: &[u8]) -> Option<LimitRow>
    ensures { result ≡ limit_row_in bytes.now }
{
    let (lowest_units, rest) = u32::take(bytes, b'\t')?;
    let (limits, rest) = PerClass::take(rest, b'\n')?;
    rest.is_empty().then_some(LimitRow {
        lowest_units,
        limits,
    })
}

// What follows the kind of a lot row.
#[tactic(auto, using(crate::proofs::Fields::lot_in_by))]
fn read_lot(bytes: &[u8]) -> Option<LotRow>
    ensures { result ≡ lot_in bytes.now }
{
    let [status, b'\t', rest @ ..] = bytes else {
        return None;
    };
    let status = Status::try_from(char::from(*status)).ok()?;
    read_lot_row(status, rest)
}

// The row of the line, if it is of form.
pub fn read_row(item: &Item<'_>) -> Option<Row>
    ensures { result ≡ row_of (shown item.now) }
{
    let Item::Fields { first, rest, .. } = *item else {
        return None;
    };
    match first {
        [b'L'] => read_lot(rest).map(Row::Lot),
        [b'M'] => read_limit_row(rest).map(Row::Limit),
        _ => None,
    }
}
