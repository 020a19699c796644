// A line: a regime, a book, and what the line remembers.
use books::book::Book;
use regimes::judge::{Judge, Regime};
use runs::standing::Standing;

pub struct Line<R: Regime, B: Book>
where
    R::Carried: Copy,
{
    pub(crate) regime: R,
    pub(crate) book: B,
    pub(crate) standing: Standing<R::Carried>,
}
