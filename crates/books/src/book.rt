// What a book is. Code above knows a book by this trait alone.
ghost use Rattle.std.specs.Prelude.{◌≡◌, ℕ, ◌+◌, ◌<◌, ◌≤◌, true, List, length, is_err, OnOk};
ghost use Rattle.entries.specs.declared.entry.Entry.{Entry as Written};
ghost use Rattle.entries.specs.Entries.{writable};
ghost use Rattle.books.specs.Books.{numbered, refusal, answered, put, left};

use entries::entry::Entry;
use inspection::refusal::Refusal;

// The most entries that a book can come to hold.
pub const LARGEST: u32 = 9_999_999;

// Why a book with so much room refuses an entry: there is none, and then that the entry is not writable.
pub(crate) fn admit(room_left: u32, entry: &Entry) -> Result<(), Refusal>
    ensures answer { result ≡ answered (refusal room_left entry.now) }
    ensures admitted { OnOk result ((0 < room_left) × (writable entry.now ≡ true)) }
{
    if room_left == 0 {
        return Err(Refusal::NoRoom);
    }
    if !entry.is_writable() {
        return Err(Refusal::EntryUnwritable);
    }
    Ok(())
}

pub trait Book {
    // Its entries, the first numbered 1.
    ghost entries: { Self → List Written };

    // How many further entries it takes.
    ghost room: { Self → ℕ };

    // Entries and room together are at most 9,999,999: each `impl` proves it of every book.
    ghost few: { (b : Self) → length (entries b) + room b ≤ 9999999 };

    fn count(&self) -> u32
        ensures { result ≡ length (entries self.now) };

    fn room_left(&self) -> u32
        ensures { result ≡ room self.now };

    // The entry of that number; 0 and numbers beyond the count are absent.
    fn entry(&self, number: u32) -> Option<Entry>
        ensures { result ≡ numbered number (entries self.now) };

    // Puts the entry last. Refused where there is no room, and then where it is not writable; a refusal leaves the whole book as it was.
    fn add(&mut self, entry: Entry) -> Result<(), Refusal>
        ensures answer { result ≡ answered (refusal (room self.old) entry) }
        ensures entries { entries self.new ≡ put (refusal (room self.old) entry) (entries self.old) entry }
        ensures room { room self.new ≡ left (refusal (room self.old) entry) (room self.old) }
        ensures same { is_err result ≡ true → self.new ≡ self.old };
}
