// UNPACK's rules: formats, cycle, mask and MODE, and their arithmetic. What each function means is said by the definitions of specs/, and so is all of UNPACK.
#![tactic(auto)]

mod cycle;
mod five;
mod formats;
mod mask;
mod payload;
mod range;
mod value;

pub use cycle::{cycles_before, is_fill, place_in_cycle, vectors_before, wrapped};
pub use five::five_fields;
pub use formats::{format_named, format_number};
pub use mask::{mask_of, row_of_cycle, unfold_mask};
pub use payload::count_of;
pub use range::{cycle_in_range, cycle_refused};
pub use value::{field, is_plain, next_rows};

// Addresses of quadwords have ten bits.
pub const ADDRESSES: u32 = 1024;

pub const ADDRESS_MOST: u32 = 1023;

// A format and its number.
#[derive(Debug, Clone, Copy, PartialEq, Eq)]
pub enum Format {
    S32 = 0x0,
    S16 = 0x1,
    S8 = 0x2,
    V2x32 = 0x4,
    V2x16 = 0x5,
    V2x8 = 0x6,
    V3x32 = 0x8,
    V3x16 = 0x9,
    V3x8 = 0xa,
    V4x32 = 0xc,
    V4x16 = 0xd,
    V4x8 = 0xe,
    V4x5 = 0xf,
}

// An UNPACK that waits for payload: its quadword address, its writes, the payload words still due, USN, M, its interrupt bit, and the last three
// payload words taken, oldest first.
#[derive(Debug, Clone, Copy, PartialEq, Eq)]
pub struct Unpacking {
    pub address: u32,
    pub count: u32,
    pub due: u32,
    pub usn: bool,
    pub masked: bool,
    pub interrupt: bool,
    pub first: u32,
    pub second: u32,
    pub third: u32,
}

// The registers that a write reads and leaves alone.
#[derive(Debug, Clone, Copy, PartialEq, Eq)]
pub struct Registers {
    pub cl: u32,
    pub wl: u32,
    pub mode: u32,
    pub mask: u32,
    pub col: [u32; 4],
}

// The new ROW and the UNPACK that waits on.
#[derive(Debug, Clone, Copy, PartialEq, Eq)]
pub struct WordsTaken {
    pub row: [u32; 4],
    pub rest: Unpacking,
}
