// Blocks of words: a GIF path, a VIF unit and a saved state, written and read (docs/FORMATS.md). What each function means is said by the definitions of specs/.
#![tactic(auto)]

mod path;
mod state;
mod unit;
mod words;

pub use path::{path_block, path_given, path_in_block};
pub use state::{state_block, state_given, state_in_block};
pub use unit::{unit_block, unit_given, unit_in_block};

// The words of a path block.
pub const PATH_WORDS: usize = 9;

// The words of a unit block: the registers, and the code that waits.
const REGISTER_WORDS: usize = 21;

// ROW's four words and then COL's four are the last of the registers'.
pub const ROW_AT: usize = REGISTER_WORDS - 8;

const WAITING_WORDS: usize = 11;

pub const UNIT_WORDS: usize = REGISTER_WORDS + WAITING_WORDS;

// The words of a state block: the chain's own, and then its parts, one after another.
const CHAIN_WORDS: usize = 13;

pub const VIF1_AT: usize = CHAIN_WORDS;

const PATH2_AT: usize = VIF1_AT + UNIT_WORDS;

const PATH3_AT: usize = PATH2_AT + PATH_WORDS;

pub const VIF0_AT: usize = PATH3_AT + PATH_WORDS;

pub const STATE_WORDS: usize = VIF0_AT + UNIT_WORDS;
