// A unit's register block, with one of its eight numbers set.
ghost use Rattle.std.specs.Prelude.{◌≡◌, ◌<◌};
ghost use Rattle.console.specs.Register.{is_waiting, number_set, set_by, set_of};
ghost use Rattle.console.specs.SetAnswer.{set_answer};

use fields::Refusal;
use vif_codes::{Vif, Waiting};

// Whether a code waits for payload.
#[tactic(auto, unfolding(crate::specs::Register::is_waiting))]
pub(crate) fn is_waiting(w: Waiting) -> bool
    ensures { result ≡ is_waiting w }
{
    !matches!(w, Waiting::Nothing)
}

// The block with one of the eight numbers replaced.
fn with_number(mut block: Vif, number: u32, value: u32) -> Vif
    requires { number < 8 }
    ensures { result ≡ number_set block number value }
{
    if number < 4 {
        block.row[number as usize] = value;
    } else {
        block.col[(number - 4) as usize] = value;
    }
    block
}

// By value: the block with the number set.
pub fn with_register(block: Vif, number: u32, value: u32) -> Result<Vif, Refusal>
    ensures { set_by block result ≡ set_of block number value }
{
    if 7 < number {
        return Err(Refusal::NumberMissing);
    }
    if is_waiting(block.waiting) {
        return Err(Refusal::CodeWaits);
    }
    Ok(with_number(block, number, value))
}

// In place: the block that is lent.
pub fn set_register(block: &mut Vif, number: u32, value: u32) -> Result<(), Refusal>
    ensures { record { answer = set_answer result; block = block.new } ≡ set_of block.old number value }
{
    *block = with_register(*block, number, value)?;
    Ok(())
}
