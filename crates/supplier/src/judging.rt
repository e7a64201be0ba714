// What a run left beside what the sheet means: the first difference.
ghost use Rattle.std.specs.Prelude.{◌≡◌};
ghost use Rattle.memories.specs.declared.VifUnit.TheVariants.{Vif1};
ghost use Rattle.memories.specs.Units.{quadwords, instructions};
ghost use Rattle.memories.specs.Lengths.{lent};
ghost use Rattle.chain.specs.Answer.{run_answer};
ghost use Rattle.conformance.specs.Demand.{records_of};
ghost use Rattle.compare.specs.Elements.{first_differing};
ghost use Rattle.compare.specs.Boards.{board, board_now, memories_now};
ghost use Rattle.supplier.specs.CheckAnswer.{verdict_answer, check_answer};
ghost use Rattle.supplier.specs.Check.{meant_from};
ghost use Rattle.supplier.specs.Inner.{after_now, entries_difference, first_difference, Beside, Judges, judgement, judged_done, judged_by};

use super::Verdict;
use chain::Ending;
use compare::{Board, Comparison, Memories};
use fields::Refusal;
use sheet::{Front, SheetError};

const PARTS: u32 = compare::VIF1_DATA + compare::VIF1_CODE;

const QUADWORDS: u64 = memories::VIF1_QUADWORDS as u64;

const INSTRUCTIONS: u64 = memories::VIF1_INSTRUCTIONS as u64;

// What a run left: VIF1's memories, the log, and how many of its entries are used.
#[derive(Clone, Copy)]
pub(crate) struct After<'a> {
    pub(crate) memories: Memories<'a>,
    pub(crate) log: &'a [u64],
    pub(crate) used: u64,
}

impl<'a> After<'a> {
    pub(crate) fn new(data: &'a [u32], code: &'a [u8], log: &'a [u64], used: u64) -> After<'a>
        ensures { (after_now result ≡ lent «data».now code.now log.now) × (result.used ≡ used) }
    {
        After {
            memories: Memories { data, code },
            log,
            used,
        }
    }
}

// The entries: the first that differs of those that both have, then how many the run has.
fn entries_verdict(front: Front, used: u64) -> Verdict
    ensures { verdict_answer result ≡ entries_difference front.leading used front.entries }
{
    if front.leading < used && front.leading < front.entries {
        return Verdict::Entry(front.leading);
    }
    if used != front.entries {
        return Verdict::Entries(used);
    }
    Verdict::Accepted
}

// The lowest quadword, then the lowest instruction that differs, then the entries.
fn first_difference(found: Comparison, front: Front, used: u64) -> Verdict
    ensures { verdict_answer result
        ≡ first_difference found.vif1.quadwords.first found.vif1.instructions.first front.leading used front.entries }
{
    let quadword = found.vif1.quadwords.first;
    let instruction = found.vif1.instructions.first;
    if quadword < QUADWORDS {
        return Verdict::Quadword(quadword);
    }
    if instruction < INSTRUCTIONS {
        return Verdict::Instruction(instruction);
    }
    entries_verdict(front, used)
}

// A board of VIF1's memories. Which stand for the parts that are not asked for doesn't matter.
fn side<'a>(vif1: Memories<'a>, log: &'a [u64]) -> Board<'a>
    ensures { board_now result
        ≡ board (memories_now vif1.entry) (memories_now vif1.entry) log.now 0 }
{
    Board {
        vif1,
        vif0: vif1,
        log,
        used: 0,
    }
}

// By the memories that the run left and those that the sheet means.
fn compare_memories(
    after: After<'_>,
    words: &[u32],
    bytes: &[u8],
    front: Front,
) -> Result<Verdict, SheetError>
    requires { Beside after.memories.«data».now after.memories.code.now words.now bytes.now }
    ensures { check_answer result
        ≡ first_difference (first_differing 4 after.entry.memories.«data».now words.now (quadwords Vif1))
        (first_differing 8 after.entry.memories.code.now bytes.now (instructions Vif1)) front.leading after.entry.used front.entries }
{
    let meant = Memories {
        data: words,
        code: bytes,
    };
    let a = side(after.memories, after.log);
    let b = side(meant, after.log);
    let found = compare::compare(a, b, PARTS)?;
    Ok(first_difference(found, front, after.used))
}

// By what a run that is done left; `words` and `bytes` are the memories as they stood before it.
fn judge_done(
    sheet: &[u8],
    after: After<'_>,
    words: &mut [u32],
    bytes: &mut [u8],
) -> Result<Verdict, SheetError>
    requires { Judges sheet.now (after_now after) after.used words.old bytes.old }
    ensures { judgement (check_answer result) words.new bytes.new
        ≡ judged_done (after_now after.entry) after.entry.used
        (meant_from (records_of sheet.now) words.old bytes.old) }
{
    let front = sheet_meaning::match_meaning(sheet, words, bytes, after.log, after.used)?;
    compare_memories(after, words, bytes, front)
}

// By the run's answer, then by what it left.
pub(crate) fn judge(
    sheet: &[u8],
    answer: Result<Ending, Refusal>,
    after: After<'_>,
    words: &mut [u32],
    bytes: &mut [u8],
) -> Result<Verdict, SheetError>
    requires { Judges sheet.now (after_now after) after.used words.old bytes.old }
    ensures { judgement (check_answer result) words.new bytes.new
        ≡ judged_by (run_answer answer) (after_now after.entry) after.entry.used words.old bytes.old
        (records_of sheet.now) }
{
    match answer {
        Ok(Ending::Done) => judge_done(sheet, after, words, bytes),
        _ => Ok(Verdict::Stopped(answer)),
    }
}
