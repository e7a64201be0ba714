// A sheet's chain built in main memory, started and run.
ghost use Rattle.std.specs.Prelude.{◌≡◌};
ghost use Rattle.memories.specs.Lengths.{lent};
ghost use Rattle.conformance.specs.PlayAnswer.{play_answer};
ghost use Rattle.conformance.specs.Play.{play_number};
ghost use Rattle.tejborun.specs.Play.{play_offset, begun, left, play_call};

use super::blocks::put_back;
use super::results::put_before;
use chain::{Ending, answer_number};
use conformance::PlayError;
use fields::BUFFER_SHORT;
use state_block::{STATE_WORDS, state_given};

fn play_number(answer: Result<Ending, PlayError>) -> u32
    ensures { result ≡ play_number (play_answer answer) }
{
    match answer {
        Ok(ending) => answer_number(Ok(ending)),
        Err(PlayError::Run(refusal)) => refusal.number(),
        Err(PlayError::Sheet(error)) => error.refusal.number(),
    }
}

// Whether a run was begun.
fn begun(answer: Result<Ending, PlayError>) -> bool
    ensures { result ≡ begun (play_answer answer) }
{
    !matches!(answer, Err(PlayError::Sheet(_)))
}

fn play_offset(answer: Result<Ending, PlayError>) -> u64
    ensures { result ≡ play_offset (play_answer answer) }
{
    match answer {
        Err(PlayError::Sheet(error)) => error.offset as u64,
        _ => 0,
    }
}

#[unsafe(no_mangle)]
pub extern "C" fn tejborun_build_and_run(
    sheet: &[u8],
    main: &mut [u8],
    address: u32,
    data: &mut [u32],
    code: &mut [u8],
    log: &mut [u64],
    block: &mut [u32],
    allowance: u64,
    res: &mut [u64],
) -> u32
    ensures { left result main.new (lent «data».new code.new log.new) block.new res.new
        ≡ play_call sheet.now main.old address (lent «data».old code.old log.old) block.old allowance res.old }
{
    if block.len() != STATE_WORDS || res.len() < 13 {
        return BUFFER_SHORT;
    }
    let given = state_given(block);
    let r = conformance::build_and_run(sheet, main, address, data, code, log, given, allowance);
    put_back(block, begun(r.answer), r.state);
    put_before(res, &[play_offset(r.answer)], r.counts);
    play_number(r.answer)
}
