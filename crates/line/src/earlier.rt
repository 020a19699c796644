// The first entries of a book: what a call, or an entry that is replayed, finds before it.
ghost use Rattle.std.specs.Prelude.{◌≡◌, ◌+◌, ◌≤◌, List, [], ◌∷◌, ◌++◌, length, take, MatchOption};
ghost use Rattle.entries.specs.declared.entry.Entry.{Entry as Written};
ghost use Rattle.runs.specs.Lines.{reading, articles, last_articles};
ghost use Rattle.line.specs.Seeing.{seen_of, seen_entry, as_held, Within};

use crate::sample::Sample;
use crate::seen::Seen;
use books::book::Book;
use entries::entry::Entry;
use inspection::kind::Kind;
use inspection::verdict::Verdict;
use std::marker::Model;

#[derive(Drop)]
pub(crate) struct Earlier<'a, B: Book> {
    book: &'a B,
    count: u32,
}

// A contract sees them as a list, the oldest first.
impl<'a, B: Book> Model for Earlier<'a, B> {
    ghost Value = { List Written };

    ghost view = { λ e. take e.count (B.Book.entries e.book.now) };

    ghost invariant = { λ e. e.count ≤ length (B.Book.entries e.book.now) };
}

impl<'a, B: Book> Earlier<'a, B> {
    // The entries up to the number `before`.
    pub(crate) fn of(book: &'a B, before: u32) -> Earlier<'a, B>
        ensures { result ≡ take before (B.Book.entries book.now) }
    {
        Earlier {
            book,
            count: before.min(book.count()),
        }
    }

    // All the entries of the book.
    pub(crate) fn whole(book: &'a B) -> Earlier<'a, B>
        ensures { result ≡ B.Book.entries book.now }
    {
        Earlier {
            book,
            count: book.count(),
        }
    }

    // The number of the entry after them.
    pub(crate) fn next_number(&self) -> u32
        ensures { result ≡ length self.now + 1 }
    {
        self.count + 1
    }

    // All of them again, to be read back.
    fn all(&self) -> Earlier<'a, B>
        ensures same { result ≡ self.now }
        ensures few { length self.now ≤ 9999999 }
    {
        Earlier {
            book: self.book,
            count: self.count,
        }
    }

    // The last of them, and those before it.
    #[tactic(auto, using(crate::proofs::ReadBack::none_last, crate::proofs::ReadBack::some_last, crate::proofs::ReadBack::some_left))]
    fn split_last(&self) -> Option<(Entry, Earlier<'a, B>)>
        ensures { MatchOption result (self.now ≡ []) (λ x. self.now ≡ x.1 ++ x.0 ∷ []) }
    {
        let entry = self.book.entry(self.count)?;
        let earlier = Earlier {
            book: self.book,
            count: self.count - 1,
        };
        Some((entry, earlier))
    }

    // The first sample that awaits its second after them.
    #[tactic(auto, using(crate::proofs::ReadBack::first_at_lot, crate::proofs::ReadBack::first_at_second, crate::proofs::ReadBack::first_passed))]
    fn first_sample(&self) -> Option<Sample>
        ensures { result ≡ as_held (reading self.now).first_sample }
    {
        let mut rest = self.all();
        while let Some((entry, earlier)) = rest.split_last() {
            match entry.kind {
                Kind::Lot => return Sample::of_lot(entry),
                Kind::SecondSample => return None,
                _ => rest = earlier,
            }
        }
        None
    }

    // The article that an entry after them decides, if any.
    #[tactic(auto, using(crate::proofs::ReadBack::within_together))]
    fn article(&self, entry: Entry) -> Seen
        ensures value { result ≡ seen_entry entry self.now }
        ensures within { Within 2 result }
    {
        match (entry.kind, entry.verdict) {
            (Kind::Lot, Verdict::Awaited) => Seen::NOTHING,
            (Kind::Portion, _) | (Kind::Lot, _) => Seen::from(entry),
            (Kind::SecondSample, _) => match self.first_sample() {
                Some(first) => Seen::from(first) + Seen::from(entry),
                None => Seen::NOTHING,
            },
            _ => Seen::NOTHING,
        }
    }

    // The last articles, at most so many.
    pub(crate) fn look_back(&self, most: u32) -> Seen
        ensures { result ≡ seen_of (last_articles most (articles self.now)) }
    {
        let mut seen = Seen::NOTHING;
        let mut rest = self.all();
        while seen.articles < most {
            let Some((entry, earlier)) = rest.split_last() else {
                break;
            };
            seen = seen + earlier.article(entry);
            rest = earlier;
        }
        seen
    }
}
