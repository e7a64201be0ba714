// DIRECT and DIRECTHL: quadwords to the GIF's path 2.
ghost use Rattle.std.specs.Prelude.{◌≡◌, List, ℕ, ◌+◌, ◌*◌, ◌^◌};
ghost use Rattle.fields.specs.Fields.{quadword};
ghost use Rattle.memories.specs.Lengths.{lent};
ghost use Rattle.vif.specs.Step.{left, give_quadword, direct_step};
ghost use Rattle.vif.specs.Inner.{GifReady};

use super::VifResult;
use super::payload::answered;
use fields::Refusal;
use gif::{GifPath, Path};
use vif_codes::{Incoming, Taken, Vif, Waiting, completed, or_nothing};

fn joined(low: u32, high: u32) -> u64
    ensures { result ≡ low + high * 2 ^ 32 }
{
    low as u64 + high as u64 * 0x1_0000_0000
}

// A quadword to path 2; `rest` is what waits if more is due. The other memories, `mem` and `code`, are any.
fn give(
    low: u64,
    high: u64,
    unit: Vif,
    path2: Path,
    due: u32,
    interrupt: bool,
    rest: Waiting,
    log: &mut [u64],
    used: u64,
) -> VifResult
    requires { GifReady path2 used log.old }
    ensures { (mem code : List ℕ) → left result (lent mem code log.new)
        ≡ give_quadword (quadword low high) unit path2 due interrupt rest used (lent mem code log.old) }
{
    let r = gif::take_quadword(GifPath::Two, path2, low, high, log, used);
    match r.answer {
        Ok(closed) => answered(
            Ok(Taken::Quadword {
                interrupt: completed(due, interrupt),
                closed,
            }),
            unit.with_waiting(or_nothing(due, rest)),
            r.path,
            r.used,
        ),
        Err(e) => answered(Err(e), unit, path2, used),
    }
}

// The next word while DIRECT or DIRECTHL waits.
pub(crate) fn direct(
    next: Incoming,
    unit: Vif,
    path2: Path,
    due: u32,
    interrupt: bool,
    rest: Waiting,
    log: &mut [u64],
    used: u64,
) -> VifResult
    requires { GifReady path2 used log.old }
    ensures { (mem code : List ℕ) → left result (lent mem code log.new)
        ≡ direct_step next unit path2 due interrupt rest used (lent mem code log.old) }
{
    match next {
        Incoming::Word0(a, b, c, d) => give(
            joined(a, b),
            joined(c, d),
            unit,
            path2,
            due,
            interrupt,
            rest,
            log,
            used,
        ),
        _ => answered(Err(Refusal::DirectUnaligned), unit, path2, used),
    }
}
