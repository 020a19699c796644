// A row of either kind, as a plan text has them.
use plans::rows::{LimitRow, LotRow};

#[derive(Clone, Copy)]
pub enum Row {
    Lot(LotRow),
    Limit(LimitRow),
}
