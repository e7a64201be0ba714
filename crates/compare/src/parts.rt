// The parts that are asked for.
ghost use Rattle.std.specs.Prelude.{◌≡◌, ◌≤◌};
ghost use Rattle.compare.specs.Parts.{data_part, code_part, asks, looked_at};

use super::{VIF0_CODE, VIF0_DATA, VIF1_CODE, VIF1_DATA};
use memories::VifUnit;

pub(crate) fn data_part(unit: VifUnit) -> u32
    ensures { (result ≡ data_part unit) × (1 ≤ result) }
{
    match unit {
        VifUnit::Vif0 => VIF0_DATA,
        VifUnit::Vif1 => VIF1_DATA,
    }
}

pub(crate) fn code_part(unit: VifUnit) -> u32
    ensures { (result ≡ code_part unit) × (1 ≤ result) }
{
    match unit {
        VifUnit::Vif0 => VIF0_CODE,
        VifUnit::Vif1 => VIF1_CODE,
    }
}

// Whether a sum has a part.
#[tactic(auto, unfolding(crate::specs::Parts::asks))]
pub(crate) fn asks(parts: u32, part: u32) -> bool
    requires { 1 ≤ part }
    ensures { result ≡ asks parts part }
{
    parts / part % 2 == 1
}

// How many of n are looked at.
pub(crate) fn looked_at(asked: bool, n: u64) -> u64
    ensures { result ≡ looked_at asked n }
{
    if asked { n } else { 0 }
}
