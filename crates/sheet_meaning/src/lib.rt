// A sheet's plain meaning, and its beginning matched with a log.
// What each function means is said by the definitions of `sheet`.
#![tactic(auto)]

mod matching;
mod plain;

pub use matching::match_meaning;
pub use plain::meaning;
