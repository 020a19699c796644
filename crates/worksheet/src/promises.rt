// What holds of every sheet, each as the contract of a function that has nothing to do.
ghost use Rattle.std.specs.Prelude.{ℕ, List};
ghost use Rattle.texts.specs.Pieces.{Whole, Numbered};
ghost use Rattle.worksheet.specs.Promises.{ReadsBack, SomeSheetShows};

// The lines that are read, put together again, are the sheet, and each has its number, from 1 on.
pub fn lines_are_the_whole_sheet()
    ensures whole { (sheet : List ℕ) → Whole sheet }
    ensures numbered { (sheet : List ℕ) → Numbered sheet }
{
    texts::lines_are_the_whole_text();
}

// A line says a defect exactly where it is that defect's line: reading and writing are inverse to each other.
pub fn a_line_says_what_is_written()
    ensures { ReadsBack }
{}

// Every tally of at most nine defects a unit is the score of some sheet.
pub fn some_sheet_shows_every_tally()
    ensures { SomeSheetShows }
{}
