// Says why a run stopped, and changes nothing. What each function means is said by the definitions of specs/.
#![tactic(auto)]

mod attempt;
mod shown;
mod telling;

use fields::Refusal;
pub use telling::why;

// Why the next step of a run would not be taken: an entry refusal; the chain's end, with nothing pending; no complaint; or the refusal of the step, the address
// that it reads and the contents of the field at fault, 0 for a second number where there is one.
#[derive(Clone, Copy)]
pub enum Reason {
    Entry(Refusal),
    Ended,
    NoComplaint,
    Step {
        refusal: Refusal,
        address: u32,
        first: u64,
        second: u64,
    },
}

// The refusal of the next step, and the entries that the step needs where it lacks room for them.
#[derive(Clone, Copy)]
pub(crate) struct Fault {
    pub(crate) refusal: Refusal,
    pub(crate) needed: u64,
}
