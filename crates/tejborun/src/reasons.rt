// Why a run stopped.
ghost use Rattle.std.specs.Prelude.{◌≡◌};
ghost use Rattle.memories.specs.Lengths.{lent};
ghost use Rattle.diagnosis.specs.Reason.{reason};
ghost use Rattle.diagnosis.specs.Why.{reason_kind, reason_numbers};
ghost use Rattle.tejborun.specs.Buffers.{answered};
ghost use Rattle.tejborun.specs.Reasons.{why_call};

use super::results::put;
use diagnosis::Reason;
use fields::BUFFER_SHORT;
use state_block::{STATE_WORDS, state_given};

fn reason_kind(told: Reason) -> u32
    ensures { result ≡ reason_kind (reason told) }
{
    match told {
        Reason::NoComplaint => 0,
        Reason::Ended => 1,
        Reason::Entry(_) => 2,
        Reason::Step { .. } => 3,
    }
}

// The refusal, the address and the two numbers that are shown.
fn reason_numbers(told: Reason) -> [u64; 4]
    ensures { result ≡ reason_numbers (reason told) }
{
    match told {
        Reason::NoComplaint | Reason::Ended => [0; 4],
        Reason::Entry(refusal) => [u64::from(refusal.number()), 0, 0, 0],
        Reason::Step {
            refusal,
            address,
            first,
            second,
        } => [
            u64::from(refusal.number()),
            u64::from(address),
            first,
            second,
        ],
    }
}

#[unsafe(no_mangle)]
pub extern "C" fn tejborun_why(
    main: &[u8],
    data: &[u32],
    code: &[u8],
    log: &[u64],
    block: &[u32],
    res: &mut [u64],
) -> u32
    ensures { answered result res.new
        ≡ why_call main.now (lent «data».now code.now log.now) block.now res.old }
{
    if block.len() != STATE_WORDS || res.len() < 4 {
        return BUFFER_SHORT;
    }
    let given = state_given(block);
    let why = diagnosis::why(main, data, code, log, given);
    put(res, &reason_numbers(why));
    reason_kind(why)
}
