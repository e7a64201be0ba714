// The parts and the lengths that are compared, and the others.
ghost use Rattle.std.specs.Prelude.{◌≡◌};
ghost use Rattle.fields.specs.Refusals.{refusal_in};
ghost use Rattle.compare.specs.Boards.{board_now, other_length, data_refused, code_refused, logs_refused, refusal};

use super::parts::{asks, code_part, data_part};
use super::{ALL_PARTS, Board, LOG};
use fields::Refusal;
use memories::VifUnit;

fn other_length(n: usize, a: usize, b: usize) -> bool
    ensures { result ≡ other_length n a b }
{
    a != n || b != n
}

// Whether a unit's data memories are asked for and one has not the unit's length.
#[tactic(auto, unfolding(crate::specs::Boards::data_refused))]
fn data_refused(parts: u32, unit: VifUnit, a: &[u32], b: &[u32]) -> bool
    ensures { result ≡ data_refused parts unit a.now b.now }
{
    let words = 4 * memories::quadwords(unit) as usize;
    asks(parts, data_part(unit)) && other_length(words, a.len(), b.len())
}

// The same of code memories.
#[tactic(auto, unfolding(crate::specs::Boards::code_refused))]
fn code_refused(parts: u32, unit: VifUnit, a: &[u8], b: &[u8]) -> bool
    ensures { result ≡ code_refused parts unit a.now b.now }
{
    let bytes = 8 * memories::instructions(unit) as usize;
    asks(parts, code_part(unit)) && other_length(bytes, a.len(), b.len())
}

#[tactic(auto, unfolding(crate::specs::Boards::logs_refused))]
fn logs_refused(parts: u32, a: &[u64], used_a: u64, b: &[u64], used_b: u64) -> bool
    ensures { result ≡ logs_refused parts a.now used_a b.now used_b }
{
    asks(parts, LOG) && (gif::log_refused(a, used_a) || gif::log_refused(b, used_b))
}

// Whether two boards are compared.
pub(crate) fn test_boards(a: Board<'_>, b: Board<'_>, parts: u32) -> Result<(), Refusal>
    ensures { refusal_in result ≡ refusal parts (board_now a.entry) (board_now b.entry) }
{
    if parts == 0 || ALL_PARTS < parts {
        return Err(Refusal::OutOfRange);
    }
    if data_refused(parts, VifUnit::Vif1, a.vif1.data, b.vif1.data)
        || data_refused(parts, VifUnit::Vif0, a.vif0.data, b.vif0.data)
    {
        return Err(Refusal::DataLength);
    }
    if code_refused(parts, VifUnit::Vif1, a.vif1.code, b.vif1.code)
        || code_refused(parts, VifUnit::Vif0, a.vif0.code, b.vif0.code)
    {
        return Err(Refusal::CodeLength);
    }
    if logs_refused(parts, a.log, a.used, b.log, b.used) {
        return Err(Refusal::LogLength);
    }
    Ok(())
}
