// The reason.
ghost use Rattle.std.specs.Prelude.{◌≡◌, ◌*◌, ◌≤◌, length};
ghost use Rattle.gif.specs.Log.{entry_size};
ghost use Rattle.memories.specs.Lengths.{lent};
ghost use Rattle.diagnosis.specs.Reason.{reason};
ghost use Rattle.diagnosis.specs.Why.{why_of};
ghost use Rattle.diagnosis.specs.Inner.{outlook, roomed, trial};

use super::attempt::try_step;
use super::shown::Refused;
use super::{Fault, Reason};
use chain_reason::next_place;
use chain_state::{State, test_entry};
use fields::Refusal;
use gif_reason::free_entries;

// What a step that was tried does with this log.
fn outlook(tried: Result<u64, Refusal>, log: &[u64], used: u64) -> Result<(), Fault>
    requires { entry_size * used ≤ length log.now }
    ensures { outlook result ≡ roomed (trial tried) log.now used }
{
    match tried {
        Ok(needed) => {
            if free_entries(log, used) < needed {
                return Err(Fault {
                    refusal: Refusal::LogFull,
                    needed,
                });
            }
            Ok(())
        }
        Err(refusal) => Err(Fault { refusal, needed: 0 }),
    }
}

// Why a run would stop here, on any input at all.
pub fn why(main: &[u8], data: &[u32], code: &[u8], log: &[u64], state: State) -> Reason
    ensures { reason result
        ≡ why_of main.now state (lent «data».now code.now log.now) }
{
    if let Err(refusal) = test_entry(main, data, code, log, state) {
        return Reason::Entry(refusal);
    }
    if chain::finished(state) {
        return Reason::Ended;
    }
    match outlook(try_step(main, state), log, state.used) {
        Ok(()) => Reason::NoComplaint,
        Err(fault) => {
            let refused = Refused {
                fault,
                main,
                state,
                log,
            };
            let shown = refused.numbers();
            Reason::Step {
                refusal: fault.refusal,
                address: next_place(state),
                first: shown.first,
                second: shown.second,
            }
        }
    }
}
