// A book that stands on records.
ghost use Rattle.std.specs.Prelude.{◌≡◌};
ghost use Rattle.books.specs.Stores.{records_read, record_after};
ghost use Rattle.books.specs.Keeping.{record_kept};

use crate::counted::CountedBook;
use crate::places::Places;
use entries::entry::Entry;

// A book whose places are records.
pub type TableBook<'a> = CountedBook<&'a mut [Entry]>;

impl<'a> Places for &'a mut [Entry] {
    ghost standing = { λ m. records_read m.now };

    ghost written = { λ place entry old new. new ≡ record old { now = record_after place entry old.now } };

    ghost keeps = { λ place entry old new within fine is. record_kept place entry old.now new.now fine (λ i. (is i).now) };

    fn places(&self) -> usize {
        self.len()
    }

    fn read(&self, place: usize) -> Entry {
        let record = self[place];
        record.or_spoiled()
    }

    fn write(&mut self, place: usize, entry: &Entry) {
        self[place] = *entry;
    }
}
