// What the programs that run cases share: cases read one after another, words of a header, memories as a case fills them, and memories and their changes as
// results show them.
#![tactic(auto)]

mod changes;
mod filling;
mod input;
mod memories;
mod number;
mod run;
mod sums;
mod whole;

pub use changes::tell;
pub use filling::fill;
pub use input::{read_part, read_words, words_at};
pub use memories::Memories;
pub use number::{Number, Shown};
pub use run::{Case, Damaged, Headers, StandardInput, run_cases};
pub use sums::sum;
pub use whole::emit_bytes;

// The most numbers of a log that a case gives, more than a log may have.
pub const LOG_NUMBERS: usize = 196616;
