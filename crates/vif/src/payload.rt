// Payload words of STROW and STCOL, and the result of a step.
ghost use Rattle.std.specs.Prelude.{◌≡◌, ◌-◌, ◌≤◌, set};
ghost use Rattle.vif_codes.specs.Payload.{row_word, col_word};
ghost use Rattle.vif.specs.Step.{answers};

use super::VifResult;
use fields::Refusal;
use gif::Path;
use vif_codes::{Taken, Vif, Waiting, or_nothing};

pub(crate) fn answered(
    answer: Result<Taken, Refusal>,
    unit: Vif,
    path2: Path,
    used: u64,
) -> VifResult
    ensures { result ≡ answers answer unit path2 used }
{
    VifResult {
        answer,
        unit,
        path2,
        used,
    }
}

// A word taken, and whether that completed an interrupt.
pub(crate) fn word_taken(unit: Vif, interrupt: bool, path2: Path, used: u64) -> VifResult
    ensures { result ≡ answers (Ok (Taken.Word interrupt)) unit path2 used }
{
    answered(Ok(Taken::Word { interrupt }), unit, path2, used)
}

// ROW or COL with the next word of its payload.
fn stored(words: [u32; 4], due: u32, word: u32) -> [u32; 4]
    requires { (1 ≤ due) × (due ≤ 4) }
    ensures { result ≡ set words (4 - due) word }
{
    let mut stored = words;
    stored[(4 - due) as usize] = word;
    stored
}

// ROW and COL are two registers of the unit, so each has a function; `stored` is what they share.
pub(crate) fn row_word(unit: Vif, due: u32, interrupt: bool, word: u32) -> Vif
    requires { (1 ≤ due) × (due ≤ 4) }
    ensures { result ≡ row_word unit due interrupt word }
{
    let rest = Waiting::RowDue {
        due: due - 1,
        interrupt,
    };
    Vif {
        row: stored(unit.row, due, word),
        waiting: or_nothing(due, rest),
        ..unit
    }
}

pub(crate) fn col_word(unit: Vif, due: u32, interrupt: bool, word: u32) -> Vif
    requires { (1 ≤ due) × (due ≤ 4) }
    ensures { result ≡ col_word unit due interrupt word }
{
    let rest = Waiting::ColDue {
        due: due - 1,
        interrupt,
    };
    Vif {
        col: stored(unit.col, due, word),
        waiting: or_nothing(due, rest),
        ..unit
    }
}
