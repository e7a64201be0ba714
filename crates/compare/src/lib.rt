// The comparison of two boards in the parts that are asked for: data memories by quadwords, code memories by instructions, logs by entries.
// What each function means is said by the definitions of specs/.
#![tactic(auto)]

mod boards;
mod elements;
mod lengths;
mod parts;
mod within;

ghost use Rattle.std.specs.Prelude.{◌≡◌};
ghost use Rattle.compare.specs.Boards.{board_now, compare_of, unit_same, same_of};
ghost use Rattle.compare.specs.CompareAnswer.{compare_answer};
ghost use Rattle.compare.specs.Within.{compare_within};

use boards::compare_asked;
use fields::Refusal;
use lengths::test_boards;
use within::{comparison_within, range_refused};

// The parts of a board, which are asked for by their sum.
pub const VIF1_DATA: u32 = 1;

pub const VIF1_CODE: u32 = 2;

pub const LOG: u32 = 4;

pub const VIF0_DATA: u32 = 8;

pub const VIF0_CODE: u32 = 16;

pub const ALL_PARTS: u32 = 31;

// The first that differs (as many as were compared where none does), and how many differ.
#[derive(Clone, Copy)]
pub struct Found {
    pub first: u64,
    pub count: u64,
}

// A unit's memories.
#[derive(Clone, Copy)]
pub struct UnitFound {
    pub quadwords: Found,
    pub instructions: Found,
}

// How many entries of each log are used.
#[derive(Clone, Copy)]
pub struct Used {
    pub first: u64,
    pub second: u64,
}

// The entries are those that both logs have. All numbers of a part that is not asked for are 0.
#[derive(Clone, Copy)]
pub struct Comparison {
    pub vif1: UnitFound,
    pub vif0: UnitFound,
    pub entries: Found,
    pub used: Used,
}

// The memories of a unit, as they are lent.
#[derive(Clone, Copy)]
pub struct Memories<'a> {
    pub data: &'a [u32],
    pub code: &'a [u8],
}

// A board: both units' memories, its log, and how many entries of the log are used.
#[derive(Clone, Copy)]
pub struct Board<'a> {
    pub vif1: Memories<'a>,
    pub vif0: Memories<'a>,
    pub log: &'a [u64],
    pub used: u64,
}

// Compares two boards, or refuses the parts or one of their memories or logs.
pub fn compare(a: Board<'_>, b: Board<'_>, parts: u32) -> Result<Comparison, Refusal>
    ensures { compare_answer result ≡ compare_of parts (board_now a.entry) (board_now b.entry) }
{
    test_boards(a, b, parts)?;
    Ok(compare_asked(a, b, parts))
}

// The same with data memories compared in quadwords first to last alone. A range that is none, of no data memory, or not inside one that is asked for is refused
// with the parts.
pub fn compare_within(
    a: Board<'_>,
    b: Board<'_>,
    parts: u32,
    first: u64,
    last: u64,
) -> Result<Comparison, Refusal>
    ensures { compare_answer result
        ≡ compare_within parts first last (board_now a.entry) (board_now b.entry) }
{
    if range_refused(parts, first, last) {
        return Err(Refusal::OutOfRange);
    }
    let whole = compare(a, b, parts)?;
    Ok(comparison_within(a, b, parts, first, last, whole))
}

#[tactic(auto, unfolding(crate::specs::Boards::unit_same))]
fn unit_same(found: UnitFound) -> bool
    ensures { result ≡ unit_same found }
{
    found.quadwords.count == 0 && found.instructions.count == 0
}

// The verdict: whether the boards are the same in the parts that were asked for.
#[tactic(auto, unfolding(crate::specs::Boards::same_of))]
pub fn same(comparison: Comparison) -> bool
    ensures { result ≡ same_of comparison }
{
    let memories = unit_same(comparison.vif1) && unit_same(comparison.vif0);
    let entries = comparison.entries.count == 0;
    memories && entries && comparison.used.first == comparison.used.second
}
