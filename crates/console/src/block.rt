// The same in a state block, where a host keeps both units' registers.
ghost use Rattle.std.specs.Prelude.{◌≡◌, ◌≤◌};
ghost use Rattle.console.specs.SetAnswer.{set_answer};
ghost use Rattle.console.specs.Block.{number_at, set_block, set_in_block};

use super::register::is_waiting;
use chain_state::unit_of;
use fields::Refusal;
use state_block::{ROW_AT, VIF0_AT, VIF1_AT, state_in_block};

// The word of one of the eight numbers of a unit.
fn number_at(unit: u32, number: u32) -> usize
    requires { number ≤ 7 }
    ensures { result ≡ number_at unit number }
{
    let unit_at = if unit == 0 { VIF0_AT } else { VIF1_AT };
    unit_at + (ROW_AT + number as usize)
}

// One of the eight numbers of unit 0 or 1, in the block of a state.
pub fn set_in_block(block: &mut [u32], unit: u32, number: u32, value: u32) -> Result<(), Refusal>
    ensures { set_block (set_answer result) block.new
        ≡ set_in_block block.old unit number value }
{
    if 7 < number {
        return Err(Refusal::NumberMissing);
    }
    if 1 < unit {
        return Err(Refusal::OutOfRange);
    }
    let Some(state) = state_in_block(block) else {
        return Err(Refusal::OutOfRange);
    };
    if is_waiting(state.held_by(unit_of(unit)).waiting) {
        return Err(Refusal::CodeWaits);
    }
    block[number_at(unit, number)] = value;
    Ok(())
}
