// One of the eight numbers ROW and COL set from the console: on a register block by value, in place over that, and in a state block. What each function means is said by the
// definitions of specs/.
#![tactic(auto)]

mod block;
mod register;

pub use block::set_in_block;
pub use register::{set_register, with_register};
