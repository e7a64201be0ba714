// What a payload word of STMASK leaves, and what the last unit of any payload completes.
ghost use Rattle.std.specs.Prelude.{◌≡◌};
ghost use Rattle.vif_codes.specs.Payload.{completes, or_nothing, mask_word};

use super::{Vif, Waiting};

// Whether the last unit of a payload completes an interrupt.
pub fn completed(due: u32, interrupt: bool) -> bool
    ensures { result ≡ completes due interrupt }
{
    due == 1 && interrupt
}

// What waits after a unit of a payload: nothing after the last.
pub fn or_nothing(due: u32, waiting: Waiting) -> Waiting
    ensures { result ≡ or_nothing due waiting }
{
    if due == 1 { Waiting::Nothing } else { waiting }
}

// STMASK's payload word.
pub fn mask_word(unit: Vif, word: u32) -> Vif
    ensures { result ≡ mask_word unit word }
{
    Vif {
        mask: word,
        waiting: Waiting::Nothing,
        ..unit
    }
}
