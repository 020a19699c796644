// The line of text of an entry, written into and read from 37 bytes.
ghost use Rattle.std.specs.Prelude.{◌≡◌, ℕ, ◌+◌, ◌<◌, ◌≤◌, length, if◌then◌else◌, ◌==◌};
ghost use Rattle.std.specs.Option.{option_map};
ghost use Rattle.inspection.specs.Letters.{kind_of, status_of, verdict_of};
ghost use Rattle.entries.specs.Lines.{number_field, letters_text, number_at, numbers_in, numbers_text, joint, fields_in, entry_in, line_of, Long, ReadsBack, NoOther, ElseSpoiled};

use crate::entry::Entry;
use decimals::{read_digits, write_digits};
use inspection::kind::Kind;
use inspection::status::Status;
use inspection::tally::Tally;
use inspection::verdict::Verdict;

// The length of a line with its line feed.
pub const LINE: usize = 37;

// The numbers of an entry.
#[derive(Clone, Copy)]
struct Numbers {
    lot_size: u32,
    units: u32,
    tally: Tally,
}

// A number in so many digits that the byte `end` follows, and what comes after.
fn take_number(bytes: &[u8], width: usize, end: u8) -> Option<(u32, &[u8])>
    requires { width ≤ 9 }
    ensures { option_map (λ p. (p.0, p.1.now)) result ≡ number_at width end bytes.now }
{
    let (digits, rest) = bytes.split_at_checked(width)?;
    let [ended, rest @ ..] = rest else {
        return None;
    };
    if *ended != end {
        return None;
    }
    Some((read_digits(digits)?, rest))
}

#[tactic(auto, using(crate::proofs::Chains::not_ended))]
fn read_numbers(bytes: &[u8]) -> Option<Numbers>
    ensures { result ≡ numbers_in bytes.now }
{
    let (lot_size, rest) = take_number(bytes, 7, b'\t')?;
    let (units, rest) = take_number(rest, 4, b'\t')?;
    let (critical, rest) = take_number(rest, 5, b'\t')?;
    let (major, rest) = take_number(rest, 5, b'\t')?;
    let (minor, []) = take_number(rest, 5, b'\n')? else {
        return None;
    };
    Some(Numbers {
        lot_size,
        units,
        tally: Tally {
            critical,
            major,
            minor,
        },
    })
}

fn read_parts(kind: u8, status: u8, verdict: u8, numbers: &[u8]) -> Option<Entry>
    ensures { result ≡ joint (kind_of kind) (status_of status) (verdict_of verdict) (numbers_in numbers.now) }
{
    let kind = Kind::try_from(char::from(kind)).ok()?;
    let status = Status::try_from(char::from(status)).ok()?;
    let verdict = Verdict::try_from(char::from(verdict)).ok()?;
    let Numbers {
        lot_size,
        units,
        tally,
    } = read_numbers(numbers)?;
    Some(Entry {
        kind,
        status,
        verdict,
        lot_size,
        units,
        tally,
    })
}

#[tactic(auto, using(crate::proofs::Chains::fields_at))]
fn read_fields(line: &[u8]) -> Option<Entry>
    ensures { result ≡ fields_in line.now }
{
    let [kind, b'\t', status, b'\t', verdict, b'\t', numbers @ ..] = line else {
        return None;
    };
    read_parts(*kind, *status, *verdict, numbers)
}

// The writable entry whose line the bytes are, or the spoiled one.
pub fn read_line(line: &[u8]) -> Entry
    ensures { result ≡ entry_in line.now }
{
    read_fields(line).map_or(Entry::SPOILED, |entry| entry.or_spoiled())
}

// A number in its field: digits, and the byte that ends the field.
fn put_number(field: &mut [u8], number: u32, end: u8)
    requires { 0 < length field.old }
    ensures { (w : ℕ) → length field.old ≡ w + 1 → field.new ≡ number_field w number end }
{
    let width = field.len() - 1;
    write_digits(&mut field[0..width], number);
    field[width] = end;
}

fn put_numbers(places: &mut [u8], entry: &Entry)
    requires { length places.old ≡ 31 }
    ensures { places.new ≡ numbers_text entry.now.lot_size entry.now.units entry.now.tally }
{
    let (lot_size, rest) = places.split_at_mut(8);
    let (units, rest) = rest.split_at_mut(5);
    let (critical, rest) = rest.split_at_mut(6);
    let (major, minor) = rest.split_at_mut(6);
    put_number(lot_size, entry.lot_size, b'\t');
    put_number(units, entry.units, b'\t');
    put_number(critical, entry.tally.critical, b'\t');
    put_number(major, entry.tally.major, b'\t');
    put_number(minor, entry.tally.minor, b'\n');
}

fn put_letters(places: &mut [u8], entry: &Entry)
    requires { length places.old ≡ 6 }
    ensures { places.new ≡ letters_text entry.now }
{
    places.copy_from_slice(&[
        char::from(entry.kind) as u8,
        b'\t',
        char::from(entry.status) as u8,
        b'\t',
        char::from(entry.verdict) as u8,
        b'\t',
    ]);
}

// Writes the entry's line where there is place for just a line, and says whether there was.
pub fn write_line(place: &mut [u8], entry: &Entry) -> bool
    ensures answer { result ≡ (length place.old == 37) }
    ensures bytes { place.new ≡ (if result then line_of entry.now else place.old) }
{
    if place.len() != LINE {
        return false;
    }
    let (letters, numbers) = place.split_at_mut(6);
    put_letters(letters, entry);
    put_numbers(numbers, entry);
    true
}

// A writable entry's line has 37 bytes and reads back as that entry; no other bytes do; and everything else reads as spoiled.
pub fn lines_read_back()
    ensures long { Long }
    ensures back { ReadsBack }
    ensures only { NoOther }
    ensures others { ElseSpoiled }
{}
