// The GIF: tags and data, one quadword at a time, on one path. What each function means is said by the definitions of specs/.
#![tactic(auto)]

mod burst;
mod descriptor;
mod feed;
mod image;
mod log;
mod memory;
mod packed;
mod range;
mod reglist;
mod step;
mod tag;

pub use descriptor::met_descriptor;
pub use feed::take_quadwords;
use fields::Refusal;
pub use log::{log_refused, write_entry};
pub use range::path_in_range;
pub use step::take_quadword;

#[derive(Clone, Copy)]
pub enum TagFormat {
    Packed,
    Reglist,
    Image,
}

// A tag whose data has not all come; `due` is in quadwords.
#[derive(Clone, Copy)]
pub struct HeldTag {
    pub nloop: u32,
    pub eop: bool,
    pub format: TagFormat,
    pub nreg: u32,
    pub descriptors: u64,
    pub due: u32,
}

// The paths that quadwords come by, by their numbers in the log; each keeps its own place and Q.
#[derive(Clone, Copy)]
pub enum GifPath {
    Two = 2,
    Three = 3,
}

// A path: Q, and the tag that it holds, None where the next quadword is a tag.
#[derive(Clone, Copy)]
pub struct Path {
    pub q: u32,
    pub place: Option<HeldTag>,
}

// The numbers of the log that an entry takes.
pub const ENTRY_SIZE: u64 = 3;

// The most numbers that a log has.
pub const LOG_MOST: u64 = 196608;

// The path of a program start's entry.
pub const START_PATH: u64 = 0;

// A quadword, by its halves.
#[derive(Clone, Copy)]
pub(crate) struct Quadword {
    pub(crate) low: u64,
    pub(crate) high: u64,
}

// One write of a register.
#[derive(Clone, Copy)]
pub struct Write {
    pub register: u64,
    pub value: u64,
}

// The writes of one step, of which there are at most two: a list without a heap.
#[derive(Clone, Copy)]
pub enum Writes {
    Nothing,
    One(Write),
    Two(Write, Write),
}

// One entry, as the log has it.
#[derive(Clone, Copy)]
pub struct Entry {
    pub path: u64,
    pub register: u64,
    pub value: u64,
}

// What a quadword leaves. The answer is whether it closed a packet, or the refusal.
#[derive(Clone, Copy)]
pub struct GifResult {
    pub answer: Result<bool, Refusal>,
    pub path: Path,
    pub used: u64,
}

// What quadwords given one after another left, how many were taken and how many of these closed a packet. The answer is the refusal of the next one, where one is left.
#[derive(Clone, Copy)]
pub struct QuadwordsResult {
    pub path: Path,
    pub used: u64,
    pub taken: u32,
    pub packets: u64,
    pub answer: Result<(), Refusal>,
}
