// The sizes of the memories behind a unit.
ghost use Rattle.std.specs.Prelude.{◌≡◌, ◌≤◌};
ghost use Rattle.memories.specs.Units.{quadwords, instructions};

use super::{VIF0_INSTRUCTIONS, VIF0_QUADWORDS, VIF1_INSTRUCTIONS, VIF1_QUADWORDS, VifUnit};

// The quadwords of its data memory.
pub fn quadwords(unit: VifUnit) -> u32
    ensures { (result ≡ quadwords unit) × ((1 ≤ result) × (result ≤ 1024)) }
{
    match unit {
        VifUnit::Vif0 => VIF0_QUADWORDS,
        VifUnit::Vif1 => VIF1_QUADWORDS,
    }
}

// The instructions of its code memory.
pub fn instructions(unit: VifUnit) -> u32
    ensures { (result ≡ instructions unit) × ((1 ≤ result) × (result ≤ 2048)) }
{
    match unit {
        VifUnit::Vif0 => VIF0_INSTRUCTIONS,
        VifUnit::Vif1 => VIF1_INSTRUCTIONS,
    }
}
