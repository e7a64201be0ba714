// A supplier's chain beside a sheet: whether a run of the chain does what the sheet means. What each function means is said by the definitions of specs/.
#![tactic(auto)]

mod check;
mod judging;
mod numbers;

use chain::Ending;
pub use check::check_chain;
use fields::{Counts, Refusal};
pub use numbers::{kind, number, offset};
use sheet::SheetError;

// Accepted; the run's answer where it is not 0; or the first difference between what the run left and the sheet's meaning: the lowest quadword, instruction or entry
// that differs, or the run's number of entries.
#[derive(Clone, Copy)]
pub enum Verdict {
    Accepted,
    Stopped(Result<Ending, Refusal>),
    Quadword(u64),
    Instruction(u64),
    Entry(u64),
    Entries(u64),
}

// The verdict, or a refusal before the run, with the record's offset (0 for all but 40 to 45 and 52); and the run's entries used and counts, which are 0 where it is
// refused.
#[derive(Clone, Copy)]
pub struct CheckResult {
    pub answer: Result<Verdict, SheetError>,
    pub used: u64,
    pub counts: Counts,
}
