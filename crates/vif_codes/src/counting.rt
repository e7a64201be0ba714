// What a step of the unit counts for.
ghost use Rattle.std.specs.Prelude.{◌≡◌};
ghost use Rattle.vif_codes.specs.Counting.{nop_in, counts_in};
ghost use Rattle.vif_codes.specs.VifAnswer.{vif_answer};

use super::{Incoming, Taken, Waiting};
use fields::{Refusal, UnitCounts, no_units, one_quadword, one_word};

// Whether a word is decoded as a NOP.
fn nop_in(waiting: Waiting, word: u32) -> bool
    ensures { result ≡ nop_in waiting word }
{
    match waiting {
        Waiting::Nothing => word / 0x0100_0000 % 128 == 0,
        _ => false,
    }
}

// By what waited before it, the next word and the answer.
pub fn counts_in(waiting: Waiting, next: Incoming, answer: Result<Taken, Refusal>) -> UnitCounts
    ensures { result ≡ counts_in waiting next (vif_answer answer) }
{
    match answer {
        Ok(Taken::Word { .. }) => one_word(nop_in(waiting, next.word())),
        Ok(Taken::Quadword { closed, .. }) => one_quadword(closed),
        Err(_) => no_units(),
    }
}
