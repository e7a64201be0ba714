// A supplier's chain beside a sheet.
ghost use Rattle.std.specs.Prelude.{◌≡◌};
ghost use Rattle.memories.specs.Lengths.{lent};
ghost use Rattle.tejborun.specs.Checks.{left, check_call};

use super::results::put_before;
use fields::BUFFER_SHORT;

#[unsafe(no_mangle)]
pub extern "C" fn tejborun_check(
    sheet: &[u8],
    main: &[u8],
    data: &mut [u32],
    code: &mut [u8],
    log: &mut [u64],
    allowance: u64,
    res: &mut [u64],
) -> u32
    ensures { left result (lent «data».new code.new log.new) res.new
        ≡ check_call sheet.now main.now (lent «data».old code.old log.old) allowance res.old }
{
    if res.len() < 15 {
        return BUFFER_SHORT;
    }
    let r = supplier::check_chain(sheet, main, data, code, log, allowance);
    let number = supplier::number(r.answer);
    let offset = supplier::offset(r.answer) as u64;
    put_before(res, &[number, offset, r.used], r.counts);
    supplier::kind(r.answer)
}
