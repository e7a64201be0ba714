// Test sheets of both editions: their records and groups, and their steps. The definitions are of the chain built from them and of their plain meaning, too.
// What each function means is said by the definitions of specs/.
#![tactic(auto)]

mod acts;
mod fitting;
mod heads;
mod items;
mod reader;
mod sums;
mod totals;

ghost use Rattle.std.specs.Prelude.{◌≡◌};

pub use acts::{Act, TestedAct, act_on};
use fields::Refusal;
pub use fitting::Fitting;
pub use heads::{first_item, read_header};
pub use reader::{body_length, read_record};
pub use sums::Totals;
pub use totals::{measure, steps};

// The bytes that a sheet has at most.
pub const LONGEST: usize = 131072;

// The bytes of a chain at most.
pub(crate) const LONGEST_CHAIN: u64 = 1048576;

#[derive(Debug, Clone, Copy, PartialEq, Eq)]
pub enum Kind {
    Data,
    Code,
    Gs,
    Start,
}

// A refusal, and the offset of its record.
#[derive(Debug, Clone, Copy, PartialEq, Eq)]
pub struct SheetError {
    pub refusal: Refusal,
    pub offset: usize,
}

// A refusal of the whole sheet, or of what came with it.
impl From<Refusal> for SheetError {
    ghost from_gives = { λ refusal e. e ≡ record { refusal = refusal; offset = 0 } };

    fn from(refusal: Refusal) -> SheetError {
        SheetError { refusal, offset: 0 }
    }
}

// A record, and the place after it.
#[derive(Debug, Clone, Copy, PartialEq, Eq)]
pub struct Record {
    pub kind: Kind,
    pub count: u32,
    pub address: u32,
    pub next: usize,
}

// What the header at a place says.
#[derive(Debug, Clone, Copy, PartialEq, Eq)]
pub enum Item {
    Single(Record),
    Group { repetitions: u32, members: u32 },
}

// How many entries at the front of the meaning's list and of a log are the same, and how many the meaning has.
#[derive(Debug, Clone, Copy, PartialEq, Eq)]
pub struct Front {
    pub leading: u64,
    pub entries: u64,
}
