// A VIF unit's registers and codes: what a word names, the ranges, and what codes do to the registers. What each function means is said by the definitions of
// specs/.
#![tactic(auto)]

mod counting;
mod decoding;
mod execute;
mod payload;
mod range;
mod registers;
mod words;

pub use counting::counts_in;
pub use decoding::decode;
pub use execute::{
    answered, begin_mpg, begun_unpack, done, set_mode, start_program, test_unpack, waits,
};
use fields::Refusal;
pub use payload::{completed, mask_word, or_nothing};
pub use range::unit_in_range;
pub use words::incoming_at;

// MPG's addresses have eleven bits.
pub(crate) const MPG_ADDRESSES: u32 = 2048;

pub(crate) const MPG_ADDRESS_MOST: u32 = 2047;

// The numbers of an UNPACK code.
#[derive(Clone, Copy)]
pub struct UnpackCode {
    pub address: u32,
    pub num: u32,
    pub usn: bool,
    pub masked: bool,
    pub tops: bool,
}

// The codes that a word can be, each with its numbers.
#[derive(Clone, Copy)]
pub enum Code {
    Nop,
    Stcycl { cl: u32, wl: u32 },
    Offset(u32),
    Base(u32),
    Itop(u32),
    Stmod(u32),
    Mskpath3(bool),
    Mark(u32),
    Flushe,
    Flush,
    Flusha,
    Mscal(u32),
    Mscalf(u32),
    Mscnt,
    Stmask,
    Strow,
    Stcol,
    Mpg { address: u32, num: u32 },
    Direct(u32),
    Directhl(u32),
    Unpack(unpack_rules::Format, UnpackCode),
}

// The code that waits for payload, with its numbers, what is still due (words; quadwords for DIRECT) and its interrupt bit. MPG's numbers make no struct: the
// definitions of a step and of the range name each by itself (`Range.waiting_in_range`, vif `Step.step_by`).
#[derive(Clone, Copy)]
pub enum Waiting {
    Nothing,
    MaskDue(bool),
    RowDue {
        due: u32,
        interrupt: bool,
    },
    ColDue {
        due: u32,
        interrupt: bool,
    },
    MpgDue {
        address: u32,
        count: u32,
        due: u32,
        interrupt: bool,
    },
    DirectDue {
        due: u32,
        interrupt: bool,
    },
    DirecthlDue {
        due: u32,
        interrupt: bool,
    },
    UnpackDue(unpack_rules::Format, unpack_rules::Unpacking),
}

#[derive(Clone, Copy)]
pub struct Vif {
    pub cl: u32,
    pub wl: u32,
    pub ofst: u32,
    pub base: u32,
    pub tops: u32,
    pub top: u32,
    pub itops: u32,
    pub itop: u32,
    pub dbf: bool,
    pub mode: u32,
    pub mskpath3: bool,
    pub mark: u32,
    pub mask: u32,
    pub row: [u32; 4],
    pub col: [u32; 4],
    pub waiting: Waiting,
}

// The next word, by its number in its quadword; at word 0 the whole quadword lies ready.
#[derive(Clone, Copy)]
pub enum Incoming {
    Word0(u32, u32, u32, u32),
    Word1(u32),
    Word2(u32),
    Word3(u32),
}

// What was taken, and whether that completed a code with its interrupt bit, and a quadword closed a packet.
#[derive(Clone, Copy)]
pub enum Taken {
    Word { interrupt: bool },
    Quadword { interrupt: bool, closed: bool },
}

// What a code's own step leaves, but for the log.
#[derive(Clone, Copy)]
pub struct CodeResult {
    pub answer: Result<Taken, Refusal>,
    pub unit: Vif,
    pub used: u64,
}
