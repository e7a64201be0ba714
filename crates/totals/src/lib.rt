// Totals over many runs. What each function means is said by the definitions of specs/.
#![tactic(auto)]

mod adding;
mod numbers;
mod sharing;

pub use adding::add_totals;
pub use numbers::{counts_from, totals_from};
pub use sharing::nop_share;

// Sums over the runs whose counts were added.
#[derive(Clone, Copy)]
pub struct Totals {
    pub packets: u64,
    pub words: u64,
    pub nops: u64,
    pub qwc: fields::Qwc,
}

// NOPs over VIF words.
#[derive(Clone, Copy)]
pub struct Share {
    pub nops: u64,
    pub words: u64,
}
