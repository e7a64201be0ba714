// What a refusal of the GIF shows: request 6's contents of the field at fault. What each function means is said by the definitions of specs/.
#![tactic(auto)]

mod shown;

pub use shown::{free_entries, quadword_numbers};

// The numbers that stand beside a refusal, 0 for one that it has not.
#[derive(Clone, Copy)]
pub struct Numbers {
    pub first: u64,
    pub second: u64,
}
