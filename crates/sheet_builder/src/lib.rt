// The chain built from a sheet.
// What each function means is said by the definitions of `sheet`.
#![tactic(auto)]

mod writer;

pub use writer::{build, build_number};
