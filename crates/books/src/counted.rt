// A book that stands on memory, with a count of the places that are entries.
ghost use Rattle.std.specs.Prelude.{◌≡◌, ◌+◌, ◌≤◌, true, length, take, is_err, OnOk};
ghost use Rattle.books.specs.Books.{refusal, answered};
ghost use Rattle.books.specs.Stores.{cut, spare, usable};
ghost use Rattle.books.specs.Bounds.{counted_few};

use crate::book::{Book, LARGEST, admit};
use crate::places::Places;
use entries::entry::Entry;
use inspection::refusal::Refusal;

// The memory is the caller's, of a fixed size: it is lent, and the count stands beside it.
#[derive(Drop)]
pub struct CountedBook<P: Places> {
    memory: P,
    count: usize,
    ghost within: { count ≤ usable (length (P.standing memory)) },
}

impl<P: Places> CountedBook<P> {
    // A book on this memory, the first `count` places of which are its entries, as far as there are as many.
    pub fn set(memory: P, count: usize) -> CountedBook<P>
        ensures memory { result.memory ≡ memory }
        ensures count { result.count ≡ cut count (length (P.standing memory)) }
    {
        let mut book = CountedBook { memory, count: 0 };
        book.count = count.min(book.capacity());
        book
    }

    // How many entries it can come to hold.
    fn capacity(&self) -> usize
        ensures { result ≡ usable (length (P.standing self.now.memory)) }
    {
        self.memory.places().min(LARGEST as usize)
    }

    // Adds an entry; says what the memory is then.
    pub fn add_entry(&mut self, entry: Entry) -> Result<(), Refusal>
        ensures answer { result ≡ answered (refusal (spare self.old.count (length (P.standing self.old.memory))) entry) }
        ensures memory { OnOk result (P.written self.old.count entry self.old.memory self.new.memory) }
        ensures count { OnOk result (self.new.count ≡ self.old.count + 1) }
        ensures same { is_err result ≡ true → self.new ≡ self.old }
    {
        admit(self.room_left(), &entry)?;
        self.memory.write(self.count, &entry);
        self.count += 1;
        Ok(())
    }
}

impl<P: Places> Book for CountedBook<P> {
    ghost entries = { λ b. take b.count (P.standing b.memory) };

    ghost room = { λ b. spare b.count (length (P.standing b.memory)) };

    ghost few = { λ b. counted_few b.count (P.standing b.memory) b.within };

    fn count(&self) -> u32 {
        self.count as u32
    }

    fn room_left(&self) -> u32 {
        (self.capacity() - self.count) as u32
    }

    fn entry(&self, number: u32) -> Option<Entry> {
        let place = number.checked_sub(1)? as usize;
        if place < self.count {
            Some(self.memory.read(place))
        } else {
            None
        }
    }

    fn add(&mut self, entry: Entry) -> Result<(), Refusal> {
        self.add_entry(entry)
    }
}
