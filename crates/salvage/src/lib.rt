// Sheets salvaged: the records that are whole are kept, the ranges between them dropped. What each function means is said by the definitions of specs/.
#![tactic(auto)]

mod reading;
mod writing;

pub use writing::salvage;

// The bytes that are kept, and the ranges that are dropped.
#[derive(Clone, Copy)]
pub struct Sums {
    pub bytes: usize,
    pub ranges: usize,
}
