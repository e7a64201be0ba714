// Calls on a state block: reset, start, set and run.
ghost use Rattle.std.specs.Prelude.{◌≡◌};
ghost use Rattle.memories.specs.Lengths.{lent};
ghost use Rattle.tejborun.specs.Runs.{blocked, reset_call, start_call, set_call, left, run_call};

use super::blocks::{put_back, put_state};
use super::results::put_counts;
use chain::answer_number;
use fields::{BUFFER_SHORT, Refusal};
use state_block::{STATE_WORDS, state_given};

#[unsafe(no_mangle)]
pub extern "C" fn tejborun_reset(block: &mut [u32]) -> u32
    ensures { blocked result block.new ≡ reset_call block.old }
{
    if block.len() != STATE_WORDS {
        return BUFFER_SHORT;
    }
    put_state(block, chain_state::reset());
    0
}

#[unsafe(no_mangle)]
pub extern "C" fn tejborun_start(block: &mut [u32], channel: u32, tadr: u32, tte: u32) -> u32
    ensures { blocked result block.new ≡ start_call block.old channel tadr tte }
{
    if block.len() != STATE_WORDS {
        return BUFFER_SHORT;
    }
    if 1 < tte {
        return Refusal::OutOfRange.number();
    }
    let given = state_given(block);
    match chain_state::start(given, channel, tadr, tte == 1) {
        Ok(begun) => {
            put_state(block, begun);
            0
        }
        Err(refusal) => refusal.number(),
    }
}

#[unsafe(no_mangle)]
pub extern "C" fn tejborun_set(block: &mut [u32], unit: u32, number: u32, value: u32) -> u32
    ensures { blocked result block.new ≡ set_call block.old unit number value }
{
    if block.len() != STATE_WORDS {
        return BUFFER_SHORT;
    }
    match console::set_in_block(block, unit, number, value) {
        Ok(()) => 0,
        Err(refusal) => refusal.number(),
    }
}

#[unsafe(no_mangle)]
pub extern "C" fn tejborun_run(
    main: &[u8],
    data: &mut [u32],
    code: &mut [u8],
    log: &mut [u64],
    block: &mut [u32],
    allowance: u64,
    res: &mut [u64],
) -> u32
    ensures { left result (lent «data».new code.new log.new) block.new res.new
        ≡ run_call main.now (lent «data».old code.old log.old) block.old allowance res.old }
{
    if block.len() != STATE_WORDS || res.len() < 12 {
        return BUFFER_SHORT;
    }
    let given = state_given(block);
    let r = chain::run(main, data, code, log, given, allowance);
    // A run that completes no step leaves the block word for word.
    put_back(block, r.counts.steps != 0, r.state);
    put_counts(res, r.counts);
    answer_number(r.answer)
}
