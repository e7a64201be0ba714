// The next step, tried on memories and a log of its own, so that those lent stay as they are.
ghost use Rattle.std.specs.Prelude.{◌≡◌, length};
ghost use Rattle.memories.specs.Units.{data_words, code_bytes};
ghost use Rattle.chain_state.specs.Range.{unit_of};
ghost use Rattle.diagnosis.specs.Inner.{trial, Tried};

use chain_state::{State, unit_of};
use fields::Refusal;
use memories::VifUnit;

// On memories as large as those of the channel's unit; no step needs more than two entries.
fn try_on(main: &[u8], s: State, data: &mut [u32], code: &mut [u8]) -> Result<u64, Refusal>
    requires { (length «data».old ≡ data_words (unit_of s.channel)) × (length code.old ≡ code_bytes (unit_of s.channel)) }
    ensures { Tried main.now s (trial result) }
{
    let mut log = [0u64; 6];
    let r = chain::run(main, data, code, &mut log, State { used: 0, ..s }, 1);
    match r.answer {
        Ok(_) => Ok(r.state.used),
        Err(refusal) => Err(refusal),
    }
}

// The entries that the next step needs, or its refusal. Most of the time goes to clearing the memories, so each unit's are no larger than they have to be.
pub(crate) fn try_step(main: &[u8], s: State) -> Result<u64, Refusal>
    ensures { Tried main.now s (trial result) }
{
    match unit_of(s.channel) {
        VifUnit::Vif0 => try_on(main, s, &mut [0; 1024], &mut [0; 4096]),
        VifUnit::Vif1 => try_on(main, s, &mut [0; 4096], &mut [0; 16384]),
    }
}
