// What a counted book stands on: memory that is lent to it, with places for entries.
ghost use Rattle.std.specs.Prelude.{◌≡◌, ℕ, ◌<◌, true, List, length, slice_index_or, slice_set};
ghost use Rattle.entries.specs.declared.entry.Entry.{Entry as Written};
ghost use Rattle.entries.specs.Entries.{writable, spoiled};

use entries::entry::Entry;

// What stands in a place is read as spoiled where it is no writable entry.
pub trait Places {
    // What stands in its places, one after another.
    ghost standing: { Self → List Written };

    // What it is after an entry was written into a place, from what it was: that place is written, and nothing else.
    ghost written: { ℕ → Written → Self → Self → Type 0 };

    // How many places it has.
    fn places(&self) -> usize
        ensures { result ≡ length (standing self.now) };

    // What stands in a place.
    fn read(&self, place: usize) -> Entry
        requires { place < length (standing self.now) }
        ensures { result ≡ slice_index_or (standing self.now) place spoiled };

    // Writes an entry into a place.
    fn write(&mut self, place: usize, entry: &Entry)
        requires { place < length (standing self.old) }
        ensures { written place entry.now self.old self.new };

    // A writable entry stands where it was written, and everything else where it stood: each `impl` proves it.
    ghost keeps: { (place : ℕ) (entry : Written) (old new : Self) → place < length (standing old) → writable entry ≡ true → written place entry old new → standing new ≡ slice_set (standing old) place entry };
}
