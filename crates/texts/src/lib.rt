// Texts of lines, each line read as its first field and the rest.
#![tactic(auto)]

ghost use Rattle.std.specs.Prelude.{ℕ, List};
ghost use Rattle.texts.specs.Pieces.{Whole, Numbered};

pub mod bytes;
pub mod lines;

// The lines that are read, put together again, are the text, and each has its number, from 1 on.
pub fn lines_are_the_whole_text()
    ensures whole { (text : List ℕ) → Whole text }
    ensures numbered { (text : List ℕ) → Numbered text }
{}
