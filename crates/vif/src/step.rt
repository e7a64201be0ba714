// One word taken by the unit, or one quadword inside DIRECT.
ghost use Rattle.std.specs.Prelude.{◌≡◌, List, ◌&&◌, ℕ};
ghost use Rattle.gif.specs.Range.{path_in_range};
ghost use Rattle.memories.specs.Units.{quadwords, instructions};
ghost use Rattle.memories.specs.Lengths.{lent};
ghost use Rattle.vif_codes.specs.Range.{unit_in_range};
ghost use Rattle.vif.specs.Step.{left, code_step, mpg_step, unpack_step, vif_step, take_of};
ghost use Rattle.vif.specs.Inner.{CodeReady, UnpackReady, MpgReady, StepReady};

use super::VifResult;
use super::direct::direct;
use super::execute::take_code;
use super::mpg::{mpg_refused, store_mpg};
use super::payload::{answered, col_word, row_word, word_taken};
use fields::Refusal;
use gif::Path;
use memories::{VifUnit, instructions, quadwords, test_lengths};
use unpack_rules::{Format, Unpacking};
use vif_codes::{Incoming, Vif, Waiting, completed, mask_word, or_nothing, unit_in_range};

// A word that comes while nothing waits.
#[tactic(auto, unfolding(crate::specs::Step::code_step))]
fn code_word(
    which: VifUnit,
    word: u32,
    unit: Vif,
    path2: Path,
    data: &mut [u32],
    log: &mut [u64],
    used: u64,
) -> VifResult
    requires { CodeReady which unit «data».old }
    ensures { (code : List ℕ) → left result (lent «data».new code log.new)
        ≡ code_step which unit path2 word used (lent «data».old code log.old) }
{
    let r = take_code(which, word, unit, data, log, used);
    answered(r.answer, r.unit, path2, r.used)
}

// A payload word of UNPACK.
fn unpack_word(
    which: VifUnit,
    f: Format,
    u: Unpacking,
    word: u32,
    unit: Vif,
    path2: Path,
    data: &mut [u32],
    used: u64,
) -> VifResult
    requires { UnpackReady (quadwords which) unit f u «data».old }
    ensures { (code log : List ℕ) → left result (lent «data».new code log)
        ≡ unpack_step which unit path2 f u word used (lent «data».old code log) }
{
    let registers = unit.write_registers();
    let size = quadwords(which);
    let row = unpack::take_word(size, f, u, registers, word, unit.row, data).unwrap();
    let rest = Waiting::UnpackDue(f, unpack::held(u, word));
    let after = unit.with_row(row).with_waiting(or_nothing(u.due, rest));
    word_taken(after, completed(u.due, u.interrupt), path2, used)
}

// A payload word of MPG.
fn mpg_step(
    which: VifUnit,
    address: u32,
    count: u32,
    due: u32,
    interrupt: bool,
    next: Incoming,
    unit: Vif,
    path2: Path,
    code: &mut [u8],
    used: u64,
) -> VifResult
    requires { MpgReady (instructions which) address count due code.old }
    ensures { (mem log : List ℕ) → left result (lent mem code.new log)
        ≡ mpg_step which unit path2 address count due interrupt next used (lent mem code.old log) }
{
    if mpg_refused(count, due, next) {
        return answered(Err(Refusal::MpgUnaligned), unit, path2, used);
    }
    let size = instructions(which);
    store_mpg(size, address, count, due, next.word(), code);
    let rest = Waiting::MpgDue {
        address,
        count,
        due: due - 1,
        interrupt,
    };
    let after = unit.with_waiting(or_nothing(due, rest));
    word_taken(after, completed(due, interrupt), path2, used)
}

// Document 01's step, where all was tested. The memories make no struct: a code writes one or two of them, and each call would take it apart again.
#[tactic(auto, unfolding(crate::specs::Step::vif_step))]
pub(crate) fn step(
    which: VifUnit,
    unit: Vif,
    path2: Path,
    next: Incoming,
    data: &mut [u32],
    code: &mut [u8],
    log: &mut [u64],
    used: u64,
) -> VifResult
    requires { StepReady which unit path2 used (lent «data».old code.old log.old) }
    ensures { left result (lent «data».new code.new log.new)
        ≡ vif_step which unit path2 next used (lent «data».old code.old log.old) }
{
    let word = next.word();
    match unit.waiting {
        Waiting::Nothing => code_word(which, word, unit, path2, data, log, used),
        Waiting::MaskDue(i) => word_taken(mask_word(unit, word), i, path2, used),
        Waiting::RowDue { due, interrupt: i } => {
            word_taken(row_word(unit, due, i, word), completed(due, i), path2, used)
        }
        Waiting::ColDue { due, interrupt: i } => {
            word_taken(col_word(unit, due, i, word), completed(due, i), path2, used)
        }
        Waiting::MpgDue {
            address,
            count,
            due,
            interrupt: i,
        } => mpg_step(which, address, count, due, i, next, unit, path2, code, used),
        Waiting::DirectDue { due, interrupt } => {
            let rest = Waiting::DirectDue {
                due: due - 1,
                interrupt,
            };
            direct(next, unit, path2, due, interrupt, rest, log, used)
        }
        Waiting::DirecthlDue { due, interrupt } => {
            let rest = Waiting::DirecthlDue {
                due: due - 1,
                interrupt,
            };
            direct(next, unit, path2, due, interrupt, rest, log, used)
        }
        Waiting::UnpackDue(f, u) => unpack_word(which, f, u, word, unit, path2, data, used),
    }
}

pub(crate) fn in_range(which: VifUnit, unit: Vif, path2: Path) -> bool
    ensures { result ≡ (unit_in_range which unit && path_in_range path2) }
{
    unit_in_range(which, unit) && gif::path_in_range(path2)
}

// The next word given to a unit, on any input at all.
pub fn take(
    which: VifUnit,
    unit: Vif,
    path2: Path,
    next: Incoming,
    data: &mut [u32],
    code: &mut [u8],
    log: &mut [u64],
    used: u64,
) -> VifResult
    ensures { left result (lent «data».new code.new log.new)
        ≡ take_of which unit path2 next used (lent «data».old code.old log.old) }
{
    if let Err(e) = test_lengths(which, data, code, log, used) {
        return answered(Err(e), unit, path2, used);
    }
    if in_range(which, unit, path2) {
        step(which, unit, path2, next, data, code, log, used)
    } else {
        answered(Err(Refusal::OutOfRange), unit, path2, used)
    }
}
