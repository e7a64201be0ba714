// UNPACK: the vectors that a payload word completes are written to data memory. What each function means is said by the definitions of specs/.
#![tactic(auto)]

mod copy;
mod cycle;
mod payload;
mod range;
mod short;
mod step;
mod vector;
mod vectors;
mod words;
mod write;

pub use payload::waiting_for;
pub use range::unpacking_in_range;
pub use step::{take_word, write_without_payload};
pub use words::{held, take_words};

// The bytes that main memory has at most.
pub const MAIN_MOST: u32 = 1048576;
