// What a code does in its own step, where it needs no data memory.
ghost use Rattle.std.specs.Prelude.{◌≡◌, false, List, ℕ, ◌%◌};
ghost use Rattle.fields.specs.Refusals.{refusal_in};
ghost use Rattle.unpack_rules.specs.Position.{addresses};
ghost use Rattle.vif_codes.specs.Setters.{with_waiting};
ghost use Rattle.vif_codes.specs.Execute.{code_result, result_with, next_tops, started, start_program, set_mode, address_of, begin_mpg, begun_unpack, tops_refused, unpack_refusal};

use super::{CodeResult, Taken, UnpackCode, Vif, Waiting};
use fields::Refusal;
use memories::VifUnit;
use unpack_rules::{ADDRESSES, Format, Unpacking};

// What a code leaves.
pub fn answered(answer: Result<Taken, Refusal>, unit: Vif, used: u64) -> CodeResult
    ensures { result ≡ code_result answer unit used }
{
    CodeResult { answer, unit, used }
}

// A code without payload, taken.
pub fn done(unit: Vif, interrupt: bool, used: u64) -> CodeResult
    ensures { result ≡ code_result (Ok (Taken.Word interrupt)) unit used }
{
    answered(Ok(Taken::Word { interrupt }), unit, used)
}

// A code that waits for payload.
pub fn waits(unit: Vif, waiting: Waiting, used: u64) -> CodeResult
    ensures { result ≡ code_result (Ok (Taken.Word false)) (with_waiting unit waiting) used }
{
    done(unit.with_waiting(waiting), false, used)
}

fn next_tops(dbf: bool, unit: Vif) -> u32
    ensures { result ≡ next_tops dbf unit }
{
    if dbf {
        (unit.base % ADDRESSES + unit.ofst % ADDRESSES) % ADDRESSES
    } else {
        unit.base
    }
}

// The registers that a program start moves.
fn start(which: VifUnit, unit: Vif) -> Vif
    ensures { result ≡ started which unit }
{
    match which {
        VifUnit::Vif0 => Vif {
            itop: unit.itops,
            ..unit
        },
        VifUnit::Vif1 => {
            let dbf = !unit.dbf;
            let tops = next_tops(dbf, unit);
            Vif {
                itop: unit.itops,
                top: unit.tops,
                dbf,
                tops,
                ..unit
            }
        }
    }
}

// A program start: its log entry, and the registers that it moves. Data memory stays, whatever it is.
pub fn start_program(
    which: VifUnit,
    register: u64,
    value: u32,
    unit: Vif,
    interrupt: bool,
    log: &mut [u64],
    used: u64,
) -> CodeResult
    ensures { (mem : List ℕ) → result_with result mem log.new
        ≡ start_program which register value unit interrupt used mem log.old }
{
    if gif::write_entry(log, used, gif::START_PATH, register, value as u64) {
        done(start(which, unit), interrupt, used + 1)
    } else {
        answered(Err(Refusal::LogFull), unit, used)
    }
}

// STMOD.
pub fn set_mode(mode: u32, unit: Vif, interrupt: bool, used: u64) -> CodeResult
    ensures { result ≡ set_mode mode unit interrupt used }
{
    if mode == 3 {
        answered(Err(Refusal::ModeWrong), unit, used)
    } else {
        done(unit.with_mode(mode), interrupt, used)
    }
}

// The address of an UNPACK, whose low ten bits count.
fn address_of(u: UnpackCode, tops: u32) -> u32
    ensures { result % addresses ≡ address_of u tops % addresses }
{
    if u.tops {
        u.address % ADDRESSES + tops % ADDRESSES
    } else {
        u.address
    }
}

// The UNPACK that a code begins.
pub fn begun_unpack(f: Format, u: UnpackCode, unit: Vif, interrupt: bool) -> Unpacking
    ensures { result ≡ begun_unpack f u unit interrupt }
{
    let address = address_of(u, unit.tops);
    unpack::waiting_for(
        f, unit.cl, unit.wl, address, u.num, u.usn, u.masked, interrupt,
    )
}

// Whether an UNPACK wants a TOPS that the unit lacks.
fn tops_refused(which: VifUnit, tops: bool) -> bool
    ensures { result ≡ tops_refused which tops }
{
    match which {
        VifUnit::Vif0 => tops,
        VifUnit::Vif1 => false,
    }
}

// The refusal of an UNPACK.
pub fn test_unpack(which: VifUnit, u: UnpackCode, unit: Vif) -> Result<(), Refusal>
    ensures { refusal_in result ≡ unpack_refusal which u unit }
{
    if unpack_rules::cycle_refused(unit.cl, unit.wl) {
        return Err(Refusal::CycleWrong);
    }
    if tops_refused(which, u.tops) {
        return Err(Refusal::TopsMissing);
    }
    Ok(())
}

// MPG, all of whose payload is due.
pub fn begin_mpg(address: u32, num: u32, unit: Vif, interrupt: bool, used: u64) -> CodeResult
    ensures { result ≡ begin_mpg address num unit interrupt used }
{
    let count = unpack_rules::count_of(num);
    let waiting = Waiting::MpgDue {
        address,
        count,
        due: count + count,
        interrupt,
    };
    waits(unit, waiting, used)
}
