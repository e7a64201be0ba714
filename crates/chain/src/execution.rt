// A run.
ghost use Rattle.std.specs.Prelude.{◌≡◌, false, ◌≤◌};
ghost use Rattle.memories.specs.Lengths.{lent};
ghost use Rattle.chain.specs.Inner.{Ready, Advance};
ghost use Rattle.chain.specs.Answer.{run_answer};
ghost use Rattle.chain.specs.StepAnswer.{step_answer};
ghost use Rattle.chain.specs.Step.{machine};
ghost use Rattle.chain.specs.Run.{number_of, done, left_by, steps_of, run_of};

use super::burst::burst;
use super::pending::finished;
use super::step::step;
use super::{Ending, RunResult, StepResult};
use chain_state::{State, test_entry};
use fields::{ALLOWANCE_USED, INTERRUPT_MET, Refusal, no_counts, of_unit, plus};

// Some steps at once, or else one.
fn advance(
    main: &[u8],
    s: State,
    limit: u64,
    data: &mut [u32],
    code: &mut [u8],
    log: &mut [u64],
) -> StepResult
    requires { Ready main.now s (lent «data».old code.old log.old) × ((done s ≡ false) × (1 ≤ limit)) }
    ensures { Advance main.now limit (machine s (lent «data».old code.old log.old))
        (step_answer result.answer) result.counts (machine result.state (lent «data».new code.new log.new)) }
{
    let b = burst(main, s, limit, data, code, log);
    if b.counts.steps == 0 {
        return step(main, b.state, data, code, log);
    }
    StepResult {
        answer: Ok(b.interrupt),
        counts: of_unit(b.counts),
        state: b.state,
    }
}

// The steps of a run, where all was tested.
fn steps_of(
    main: &[u8],
    data: &mut [u32],
    code: &mut [u8],
    log: &mut [u64],
    state: State,
    allowance: u64,
) -> RunResult
    requires { Ready main.now state (lent «data».old code.old log.old) }
    ensures { left_by result (lent «data».new code.new log.new)
        ≡ steps_of main.now allowance state (lent «data».old code.old log.old) }
{
    let mut s = state;
    let mut counts = no_counts();
    let answer = loop {
        if finished(s) {
            break Ok(Ending::Done);
        }
        if counts.steps >= allowance {
            break Ok(Ending::Allowance);
        }
        let r = advance(main, s, allowance - counts.steps, data, code, log);
        s = r.state;
        counts = plus(counts, r.counts);
        match r.answer {
            Ok(interrupt) => {
                if interrupt {
                    break Ok(Ending::Interrupt);
                }
            }
            Err(refusal) => break Err(refusal),
        }
    };
    RunResult {
        answer,
        state: s,
        counts,
    }
}

// A run over the chain, on any input at all.
pub fn run(
    main: &[u8],
    data: &mut [u32],
    code: &mut [u8],
    log: &mut [u64],
    state: State,
    allowance: u64,
) -> RunResult
    ensures { left_by result (lent «data».new code.new log.new)
        ≡ run_of main.now allowance state (lent «data».old code.old log.old) }
{
    match test_entry(main, data, code, log, state) {
        Ok(()) => steps_of(main, data, code, log, state, allowance),
        Err(refusal) => RunResult {
            answer: Err(refusal),
            state,
            counts: no_counts(),
        },
    }
}

// The number of a run's answer.
pub fn answer_number(answer: Result<Ending, Refusal>) -> u32
    ensures { result ≡ number_of (run_answer answer) }
{
    match answer {
        Ok(Ending::Done) => 0,
        Ok(Ending::Allowance) => ALLOWANCE_USED,
        Ok(Ending::Interrupt) => INTERRUPT_MET,
        Err(refusal) => refusal.number(),
    }
}
