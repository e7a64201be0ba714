// Calls on test sheets.
ghost use Rattle.std.specs.Prelude.{◌≡◌};
ghost use Rattle.sheet.specs.Build.{build_of, exported_number};
ghost use Rattle.memories.specs.Lengths.{lent};
ghost use Rattle.tejborun.specs.Buffers.{answered};
ghost use Rattle.tejborun.specs.Sheets.{steps_call, meant, meaning_call, rescued, salvage_call};

use super::results::put;
use fields::BUFFER_SHORT;

// What the bench host calls.
#[unsafe(no_mangle)]
pub extern "C" fn tejborun_build(sheet: &[u8], output: &mut [u8]) -> usize
    ensures { (result ≡ exported_number (build_of sheet.now output.old).answer)
        × (output.new ≡ (build_of sheet.now output.old).output) }
{
    sheet_builder::build_number(sheet, output)
}

#[unsafe(no_mangle)]
pub extern "C" fn tejborun_steps(sheet: &[u8], res: &mut [u64]) -> u32
    ensures { answered result res.new ≡ steps_call sheet.now res.old }
{
    if res.len() < 2 {
        return BUFFER_SHORT;
    }
    match sheet::steps(sheet) {
        Ok(steps) => {
            put(res, &[steps, 0]);
            0
        }
        Err(error) => {
            put(res, &[0, error.offset as u64]);
            error.refusal.number()
        }
    }
}

#[unsafe(no_mangle)]
pub extern "C" fn tejborun_meaning(
    sheet: &[u8],
    data: &mut [u32],
    code: &mut [u8],
    log: &mut [u64],
    used: u64,
    res: &mut [u64],
) -> u32
    ensures { meant result (lent «data».new code.new log.new) res.new
        ≡ meaning_call sheet.now (lent «data».old code.old log.old) used res.old }
{
    if res.len() < 2 {
        return BUFFER_SHORT;
    }
    match sheet_meaning::meaning(sheet, data, code, log, used) {
        Ok(entries) => {
            put(res, &[entries, 0]);
            0
        }
        Err(error) => {
            put(res, &[used, error.offset as u64]);
            error.refusal.number()
        }
    }
}

#[unsafe(no_mangle)]
pub extern "C" fn tejborun_salvage(
    sheet: &[u8],
    output: &mut [u8],
    ranges: &mut [u64],
    res: &mut [u64],
) -> u32
    ensures { rescued result output.new ranges.new res.new
        ≡ salvage_call sheet.now output.old ranges.old res.old }
{
    if res.len() < 2 {
        return BUFFER_SHORT;
    }
    match salvage::salvage(sheet, output, ranges) {
        Ok(sums) => {
            put(res, &[sums.bytes as u64, sums.ranges as u64]);
            0
        }
        Err(refusal) => {
            put(res, &[0, 0]);
            refusal.number()
        }
    }
}
