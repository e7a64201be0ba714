// The check: refusals, copies of the starting memories, the run, and the verdict.
ghost use Rattle.std.specs.Prelude.{◌≡◌};
ghost use Rattle.memories.specs.Lengths.{lent};
ghost use Rattle.conformance.specs.Demand.{records_of};
ghost use Rattle.supplier.specs.CheckAnswer.{check_answer};
ghost use Rattle.supplier.specs.Check.{begun, run_from_reset, meant_from, checked, check_ran, check_of};
ghost use Rattle.supplier.specs.Inner.{Runs, Tested};

use super::CheckResult;
use super::judging::{After, judge};
use chain_state::State;
use fields::no_counts;
use memories::{VIF1_INSTRUCTIONS, VIF1_QUADWORDS};
use sheet::SheetError;

// VIF1's data memory in words, its code memory in bytes.
const WORDS: usize = 4 * VIF1_QUADWORDS as usize;

const BYTES: usize = 8 * VIF1_INSTRUCTIONS as usize;

// From reset on channel 1 at address 0, tag transfer off.
fn started() -> State
    ensures { result ≡ begun }
{
    chain_state::start(chain_state::reset(), 1, 0, false).unwrap()
}

// A valid sheet beside a chain, on memories whose lengths are accepted: copies of them, the run, and the verdict on what it left.
fn check_valid(
    sheet: &[u8],
    main: &[u8],
    data: &mut [u32],
    code: &mut [u8],
    log: &mut [u64],
    allowance: u64,
) -> CheckResult
    requires { Runs sheet.now main.now (lent «data».old code.old log.old) }
    ensures { checked (check_answer result.answer) result.used result.counts (lent «data».new code.new log.new)
        ≡ check_ran (run_from_reset main.now allowance (lent «data».old code.old log.old))
        (meant_from (records_of sheet.now) «data».old code.old) }
{
    let mut words = [0; WORDS];
    let mut bytes = [0; BYTES];
    words.copy_from_slice(data);
    bytes.copy_from_slice(code);
    let r = chain::run(main, data, code, log, started(), allowance);
    let used = r.state.used;
    let after = After::new(data, code, log, used);
    CheckResult {
        answer: judge(sheet, r.answer, after, &mut words, &mut bytes),
        used,
        counts: r.counts,
    }
}

// The refusals, the run's entry tests before the sheet's; else the sheet's steps.
fn test_check(
    sheet: &[u8],
    main: &[u8],
    data: &[u32],
    code: &[u8],
    log: &[u64],
) -> Result<u64, SheetError>
    ensures { Tested result sheet.now main.now (lent «data».now code.now log.now) }
{
    chain_state::test_entry(main, data, code, log, started())?;
    sheet::steps(sheet)
}

// Runs a chain from reset on channel 1 at address 0, tag transfer off, and says whether it ends with 0 and leaves what the sheet means, or the first difference. The
// memories and the log are left as the run left them; a refusal leaves them as they are.
pub fn check_chain(
    sheet: &[u8],
    main: &[u8],
    data: &mut [u32],
    code: &mut [u8],
    log: &mut [u64],
    allowance: u64,
) -> CheckResult
    ensures { checked (check_answer result.answer) result.used result.counts (lent «data».new code.new log.new)
        ≡ check_of sheet.now main.now (lent «data».old code.old log.old) allowance }
{
    match test_check(sheet, main, data, code, log) {
        Ok(_) => check_valid(sheet, main, data, code, log, allowance),
        Err(error) => CheckResult {
            answer: Err(error),
            used: 0,
            counts: no_counts(),
        },
    }
}
