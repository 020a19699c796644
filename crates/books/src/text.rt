// A book that stands on bytes: a line of text for each entry, one after another.
ghost use Rattle.std.specs.Prelude.{◌≡◌};
ghost use Rattle.books.specs.Stores.{lines_read, line_after};
ghost use Rattle.books.specs.Keeping.{line_kept};

use crate::counted::CountedBook;
use crate::places::Places;
use entries::entry::Entry;
use entries::line::{LINE, read_line, write_line};

// A book whose places are of 37 bytes each.
pub type TextBook<'a> = CountedBook<&'a mut [u8]>;

#[tactic(auto, using(crate::specs::Keeping::length_stored))]
impl<'a> Places for &'a mut [u8] {
    ghost standing = { λ m. lines_read m.now };

    ghost written = { λ place entry old new. new ≡ record old { now = line_after place entry old.now } };

    ghost keeps = { λ place entry old new within fine is. line_kept place entry old.now new.now within fine (λ i. (is i).now) };

    fn places(&self) -> usize {
        self.len() / LINE
    }

    fn read(&self, place: usize) -> Entry {
        let at = place * LINE;
        read_line(&self[at..at + LINE])
    }

    fn write(&mut self, place: usize, entry: &Entry) {
        let at = place * LINE;
        write_line(&mut self[at..at + LINE], entry);
    }
}
