// Two books as the volumes of one, itself a book.
ghost use Rattle.std.specs.Prelude.{◌≡◌};
ghost use Rattle.books.specs.Volumes.{bound, bound_room};
ghost use Rattle.books.specs.Bounds.{bound_few};

use crate::book::{Book, LARGEST, admit};
use entries::entry::Entry;
use inspection::refusal::Refusal;

// The second volume takes over once it has an entry, or once the first has no room.
#[derive(Drop)]
pub struct TwoVolumes<A: Book, B: Book> {
    first: A,
    second: B,
}

impl<A: Book, B: Book> TwoVolumes<A, B> {
    pub fn of(first: A, second: B) -> TwoVolumes<A, B>
        ensures first { result.first ≡ first }
        ensures second { result.second ≡ second }
    {
        TwoVolumes { first, second }
    }
}

impl<A: Book, B: Book> Book for TwoVolumes<A, B> {
    ghost entries = { λ b. bound (A.Book.entries b.first) (B.Book.entries b.second) };

    ghost room = { λ b. bound_room (A.Book.entries b.first) (B.Book.entries b.second) (A.Book.room b.first) (B.Book.room b.second) };

    ghost few = { λ b. bound_few (A.Book.entries b.first) (B.Book.entries b.second) (A.Book.room b.first) (B.Book.room b.second) };

    #[tactic(auto, using(crate::specs::Bounds::length_bound))]
    fn count(&self) -> u32 {
        (self.first.count() + self.second.count()).min(LARGEST)
    }

    #[tactic(auto, using(crate::specs::Bounds::length_bound))]
    fn room_left(&self) -> u32 {
        let volumes = if self.second.count() == 0 {
            self.first.room_left() + self.second.room_left()
        } else {
            self.second.room_left()
        };
        volumes.min(LARGEST - self.count())
    }

    #[tactic(auto, using(crate::proofs::Binding::in_second))]
    fn entry(&self, number: u32) -> Option<Entry> {
        let first = self.first.count();
        if number <= first {
            self.first.entry(number)
        } else if number <= LARGEST {
            self.second.entry(number - first)
        } else {
            None
        }
    }

    fn add(&mut self, entry: Entry) -> Result<(), Refusal> {
        admit(self.room_left(), &entry)?;
        if self.second.count() == 0 && self.first.room_left() > 0 {
            self.first.add(entry)
        } else {
            self.second.add(entry)
        }
    }
}
