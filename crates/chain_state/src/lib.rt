// The DMA chain's state: its parts, its range, reset and start. What each function means is said by the definitions of specs/.
#![tactic(auto)]

mod control;
mod range;
mod setters;

pub use control::{reset, start};
pub use range::{main_refused, test_entry, unit_of};

// The addresses that calls pushed, the last one last.
#[derive(Clone, Copy)]
pub enum Stack {
    Empty,
    One(u32),
    Two(u32, u32),
}

// Payload not yet taken: the address of its next word and the number of words.
#[derive(Clone, Copy)]
pub enum Payload {
    Nothing,
    Words { at: u32, count: u32 },
}

#[derive(Clone, Copy)]
pub struct State {
    pub channel: u32,
    pub tadr: u32,
    pub tte: bool,
    pub ended: bool,
    pub stack: Stack,
    // Transferred tag words not yet taken: the address of the next one.
    pub tags: Option<u32>,
    pub payload: Payload,
    pub used: u64,
    pub vif0: vif_codes::Vif,
    pub vif1: vif_codes::Vif,
    pub path2: gif::Path,
    pub path3: gif::Path,
}
