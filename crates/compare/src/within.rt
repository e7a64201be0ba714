// Two boards in the parts that are asked for, their data memories in a range of quadwords.
ghost use Rattle.std.specs.Prelude.{◌≡◌};
ghost use Rattle.memories.specs.declared.VifUnit.TheVariants.{Vif0, Vif1};
ghost use Rattle.compare.specs.Boards.{board_now};
ghost use Rattle.compare.specs.Within.{beyond, range_refused, quadwords_within, comparison_within};
ghost use Rattle.compare.specs.Inner.{RangeFits};

use super::elements::found_from;
use super::parts::{asks, data_part};
use super::{Board, Comparison, Found, UnitFound, VIF0_DATA, VIF1_DATA};
use memories::VifUnit;

#[tactic(auto, unfolding(crate::specs::Within::beyond))]
fn beyond(parts: u32, unit: VifUnit, last: u64) -> bool
    ensures { result ≡ beyond parts unit last }
{
    asks(parts, data_part(unit)) && memories::quadwords(unit) as u64 <= last
}

// Whether a range is refused.
#[tactic(auto, unfolding(crate::specs::Within::range_refused))]
pub(crate) fn range_refused(parts: u32, first: u64, last: u64) -> bool
    ensures { result ≡ range_refused parts first last }
{
    let some = asks(parts, VIF1_DATA) || asks(parts, VIF0_DATA);
    last < first
        || !some
        || beyond(parts, VifUnit::Vif1, last)
        || beyond(parts, VifUnit::Vif0, last)
}

// What is found in a unit's quadwords.
fn quadwords_within(parts: u32, unit: VifUnit, first: u64, last: u64, a: &[u32], b: &[u32]) -> Found
    requires { RangeFits parts unit first last a.now b.now }
    ensures { result ≡ quadwords_within parts unit first last a.now b.now }
{
    if asks(parts, data_part(unit)) {
        let n = last + 1 - first;
        return found_from(first as usize, n as usize, a, b);
    }
    Found { first: 0, count: 0 }
}

// A comparison with the quadwords of the range in the place of all.
pub(crate) fn comparison_within(
    a: Board<'_>,
    b: Board<'_>,
    parts: u32,
    first: u64,
    last: u64,
    whole: Comparison,
) -> Comparison
    requires { RangeFits parts Vif1 first last a.vif1.«data».now b.vif1.«data».now × RangeFits parts Vif0 first last a.vif0.«data».now b.vif0.«data».now }
    ensures { result
        ≡ comparison_within parts first last (board_now a.entry) (board_now b.entry) whole }
{
    let (a1, b1) = (a.vif1.data, b.vif1.data);
    let (a0, b0) = (a.vif0.data, b.vif0.data);
    Comparison {
        vif1: UnitFound {
            quadwords: quadwords_within(parts, VifUnit::Vif1, first, last, a1, b1),
            ..whole.vif1
        },
        vif0: UnitFound {
            quadwords: quadwords_within(parts, VifUnit::Vif0, first, last, a0, b0),
            ..whole.vif0
        },
        ..whole
    }
}
