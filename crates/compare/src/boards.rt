// Two boards that are not refused, in the parts that are asked for.
ghost use Rattle.std.specs.Prelude.{◌≡◌};
ghost use Rattle.compare.specs.Boards.{memories_now, board_now, refusal, unit_found, comparison_of};
ghost use Rattle.compare.specs.Inner.{UnitFits};

use super::elements::found_in;
use super::parts::{asks, code_part, data_part, looked_at};
use super::{Board, Comparison, LOG, Memories, UnitFound, Used};
use memories::VifUnit;

const ENTRY_SIZE: usize = gif::ENTRY_SIZE as usize;

// What is found in a unit's memories.
fn unit_found(parts: u32, unit: VifUnit, a: Memories<'_>, b: Memories<'_>) -> UnitFound
    requires { UnitFits parts unit (memories_now a) (memories_now b) }
    ensures { result ≡ unit_found parts unit (memories_now a.entry) (memories_now b.entry) }
{
    let q = looked_at(
        asks(parts, data_part(unit)),
        memories::quadwords(unit) as u64,
    ) as usize;
    let i = looked_at(
        asks(parts, code_part(unit)),
        memories::instructions(unit) as u64,
    ) as usize;
    UnitFound {
        quadwords: found_in(4, a.data, b.data, q),
        instructions: found_in(8, a.code, b.code, i),
    }
}

// Compares two boards that are not refused.
pub(crate) fn compare_asked(a: Board<'_>, b: Board<'_>, parts: u32) -> Comparison
    requires { refusal parts (board_now a) (board_now b) ≡ 0 }
    ensures { result ≡ comparison_of parts (board_now a.entry) (board_now b.entry) }
{
    let asked = asks(parts, LOG);
    let used = Used {
        first: looked_at(asked, a.used),
        second: looked_at(asked, b.used),
    };
    let both = used.first.min(used.second) as usize;
    Comparison {
        vif1: unit_found(parts, VifUnit::Vif1, a.vif1, b.vif1),
        vif0: unit_found(parts, VifUnit::Vif0, a.vif0, b.vif0),
        entries: found_in(ENTRY_SIZE, a.log, b.log, both),
        used,
    }
}
