// The lengths that are refused.
ghost use Rattle.std.specs.Prelude.{◌≡◌};
ghost use Rattle.fields.specs.Refusals.{refusal_in};
ghost use Rattle.memories.specs.Lengths.{lent, lengths_refusal};

use super::VifUnit;
use super::units::{instructions, quadwords};
use fields::Refusal;

// The refusal of the lengths of a unit's memories and of the log, where there is one.
pub fn test_lengths(
    unit: VifUnit,
    data: &[u32],
    code: &[u8],
    log: &[u64],
    used: u64,
) -> Result<(), Refusal>
    ensures { refusal_in result ≡ lengths_refusal unit (lent «data».now code.now log.now) used }
{
    if data.len() != 4 * quadwords(unit) as usize {
        return Err(Refusal::DataLength);
    }
    if code.len() != 8 * instructions(unit) as usize {
        return Err(Refusal::CodeLength);
    }
    if gif::log_refused(log, used) {
        return Err(Refusal::LogLength);
    }
    Ok(())
}
