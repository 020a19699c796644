// The rows of a plan.
use inspection::class::PerClass;
use inspection::status::Status;

// The numbers of one class of defects.
#[derive(Clone, Copy, PartialEq, Eq, Debug)]
pub struct ClassNumbers {
    // The first sample is accepted with at most so many.
    pub accept_first: u32,
    // It is rejected with at least so many.
    pub reject_first: u32,
    // Both samples together are accepted with at most so many.
    pub accept_both: u32,
}

// How a lot of a size is sampled under a status. Equal samples make a single plan, which has no second one.
#[derive(Clone, Copy, PartialEq, Eq, Debug)]
pub struct LotRow {
    pub status: Status,
    // The row is for lots from this size on.
    pub lowest_size: u32,
    pub first_sample: u32,
    pub total_sample: u32,
    pub numbers: PerClass<ClassNumbers>,
}

// How many defects relief allows in the samples of a window.
#[derive(Clone, Copy, PartialEq, Eq, Debug)]
pub struct LimitRow {
    // The row is for samples that have from so many units on together.
    pub lowest_units: u32,
    pub limits: PerClass<u32>,
}
