// A sheet's chain built at an address in main memory, started and run.
ghost use Rattle.std.specs.Prelude.{◌≡◌, ◌≤◌};
ghost use Rattle.fields.specs.Refusals.{refusal_in};
ghost use Rattle.memories.specs.Lengths.{lent};
ghost use Rattle.sheet.specs.Build.{left};
ghost use Rattle.sheet.specs.BuildAnswer.{build_answer};
ghost use Rattle.conformance.specs.PlayAnswer.{play_answer};
ghost use Rattle.conformance.specs.Play.{played, play_of};
ghost use Rattle.conformance.specs.Inner.{memories_refusal, place_of, built_at, Begins};

use super::{PlayError, PlayResult};
use chain_state::State;
use fields::{Refusal, no_counts};
use memories::VifUnit;
use sheet::SheetError;

// The refusal of the memories' lengths.
fn test_lengths(
    main: &[u8],
    data: &[u32],
    code: &[u8],
    log: &[u64],
    used: u64,
) -> Result<(), Refusal>
    ensures { refusal_in result
        ≡ memories_refusal main.now (lent «data».now code.now log.now) used }
{
    if chain_state::main_refused(main.len()) {
        return Err(Refusal::MainLength);
    }
    memories::test_lengths(VifUnit::Vif1, data, code, log, used)
}

// The place in main memory, its end where the address lies beyond.
fn place(address: u32, size: usize) -> usize
    ensures { (result ≡ place_of address size) × (result ≤ size) }
{
    size.min(address as usize)
}

fn build_at(sheet: &[u8], main: &mut [u8], address: u32) -> Result<usize, SheetError>
    ensures { left (build_answer result) main.new ≡ built_at sheet.now main.old address }
{
    let at = place(address, main.len());
    sheet_builder::build(sheet, &mut main[at..])
}

// The chain built, and the state to run it from. A refusal leaves main memory as it is.
fn begin(
    sheet: &[u8],
    main: &mut [u8],
    address: u32,
    data: &[u32],
    code: &[u8],
    log: &[u64],
    state: State,
) -> Result<State, SheetError>
    ensures { Begins result sheet.now main.old main.new address state (lent «data».now code.now log.now) }
{
    test_lengths(main, data, code, log, state.used)?;
    let begun = chain_state::start(state, 1, address, false)?;
    build_at(sheet, main, address)?;
    Ok(begun)
}

// Builds the chain of a sheet at an address in main memory, starts it on channel 1 and runs it. A refusal leaves everything as it is.
pub fn build_and_run(
    sheet: &[u8],
    main: &mut [u8],
    address: u32,
    data: &mut [u32],
    code: &mut [u8],
    log: &mut [u64],
    state: State,
    allowance: u64,
) -> PlayResult
    ensures { played (play_answer result.answer) result.state result.counts main.new (lent «data».new code.new log.new)
        ≡ play_of sheet.now main.old address state
        (lent «data».old code.old log.old) allowance }
{
    match begin(sheet, main, address, data, code, log, state) {
        Err(error) => PlayResult {
            answer: Err(PlayError::Sheet(error)),
            state,
            counts: no_counts(),
        },
        Ok(begun) => {
            let r = chain::run(main, data, code, log, begun, allowance);
            PlayResult {
                answer: r.answer.map_err(PlayError::Run),
                state: r.state,
                counts: r.counts,
            }
        }
    }
}
