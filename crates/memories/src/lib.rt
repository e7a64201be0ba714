// The memories that a host lends: their sizes by unit, and the lengths that are refused.
#![tactic(auto)]

mod lengths;
mod units;

pub use lengths::test_lengths;
pub use units::{instructions, quadwords};

// The VIF units.
#[derive(Clone, Copy)]
pub enum VifUnit {
    Vif0,
    Vif1,
}

// The quadwords of the data memories.
pub const VIF0_QUADWORDS: u32 = 256;

pub const VIF1_QUADWORDS: u32 = 1024;

// The instructions of the code memories.
pub const VIF0_INSTRUCTIONS: u32 = 512;

pub const VIF1_INSTRUCTIONS: u32 = 2048;
