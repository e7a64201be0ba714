// A code's own step.
ghost use Rattle.std.specs.Prelude.{◌≡◌, true, List, ℕ};
ghost use Rattle.memories.specs.Units.{quadwords};
ghost use Rattle.unpack_rules.specs.Step.{unfed_acceptable};
ghost use Rattle.vif_codes.specs.Codes.{interrupt_of, decode_of};
ghost use Rattle.vif_codes.specs.Payload.{write_registers};
ghost use Rattle.vif_codes.specs.Execute.{result_with, unfed_written, unfed_step, begin_unpack, execute_of, decoded_step};
ghost use Rattle.vif.specs.Inner.{CodeReady};

use memories::VifUnit;
use unpack_rules::{Format, Unpacking};
use vif_codes::{
    Code, CodeResult, UnpackCode, Vif, Waiting, answered, begin_mpg, begun_unpack, decode, done,
    set_mode, start_program, test_unpack, waits,
};

// An UNPACK with CL 0, which has no payload: its writes. The log is any.
fn unfed_unpack(
    which: VifUnit,
    f: Format,
    u: Unpacking,
    unit: Vif,
    interrupt: bool,
    data: &mut [u32],
    used: u64,
) -> CodeResult
    requires { unfed_acceptable (quadwords which) u (write_registers unit) «data».old ≡ true }
    ensures { (log : List ℕ) → result_with result «data».new log
        ≡ unfed_step (unfed_written which f u unit «data».old) unit interrupt used log }
{
    let registers = unit.write_registers();
    let size = memories::quadwords(which);
    let row = unpack::write_without_payload(size, f, u, registers, unit.row, data).unwrap();
    done(unit.with_row(row), interrupt, used)
}

// UNPACK's own step. The log is any.
fn begin_unpack(
    which: VifUnit,
    f: Format,
    u: UnpackCode,
    unit: Vif,
    interrupt: bool,
    data: &mut [u32],
    used: u64,
) -> CodeResult
    requires { CodeReady which unit «data».old }
    ensures { (log : List ℕ) → result_with result «data».new log
        ≡ begin_unpack which f u unit interrupt used «data».old log }
{
    if let Err(e) = test_unpack(which, u, unit) {
        return answered(Err(e), unit, used);
    }
    let begun = begun_unpack(f, u, unit, interrupt);
    if unit.cl == 0 {
        return unfed_unpack(which, f, begun, unit, interrupt, data, used);
    }
    waits(unit, Waiting::UnpackDue(f, begun), used)
}

// A code's own step.
fn execute(
    which: VifUnit,
    code: Code,
    unit: Vif,
    interrupt: bool,
    data: &mut [u32],
    log: &mut [u64],
    used: u64,
) -> CodeResult
    requires { CodeReady which unit «data».old }
    ensures { result_with result «data».new log.new
        ≡ execute_of which code unit interrupt used «data».old log.old }
{
    match code {
        Code::Nop => done(unit, interrupt, used),
        Code::Stcycl { cl, wl } => done(unit.with_cycle(cl, wl), interrupt, used),
        Code::Offset(x) => done(unit.with_offset(x, unit.base), interrupt, used),
        Code::Base(x) => done(unit.with_base(x), interrupt, used),
        Code::Itop(x) => done(unit.with_itops(x), interrupt, used),
        Code::Stmod(m) => set_mode(m, unit, interrupt, used),
        Code::Mskpath3(b) => done(unit.with_mskpath3(b), interrupt, used),
        Code::Mark(x) => done(unit.with_mark(x), interrupt, used),
        Code::Flushe => done(unit, interrupt, used),
        Code::Flush => done(unit, interrupt, used),
        Code::Flusha => done(unit, interrupt, used),
        Code::Mscal(x) => start_program(which, 256, x, unit, interrupt, log, used),
        Code::Mscalf(x) => start_program(which, 257, x, unit, interrupt, log, used),
        Code::Mscnt => start_program(which, 258, 0, unit, interrupt, log, used),
        Code::Stmask => waits(unit, Waiting::MaskDue(interrupt), used),
        Code::Strow => waits(unit, Waiting::RowDue { due: 4, interrupt }, used),
        Code::Stcol => waits(unit, Waiting::ColDue { due: 4, interrupt }, used),
        Code::Mpg { address, num } => begin_mpg(address, num, unit, interrupt, used),
        Code::Direct(n) => waits(unit, Waiting::DirectDue { due: n, interrupt }, used),
        Code::Directhl(n) => waits(unit, Waiting::DirecthlDue { due: n, interrupt }, used),
        Code::Unpack(f, u) => begin_unpack(which, f, u, unit, interrupt, data, used),
    }
}

// A word that comes while nothing waits.
pub(crate) fn take_code(
    which: VifUnit,
    word: u32,
    unit: Vif,
    data: &mut [u32],
    log: &mut [u64],
    used: u64,
) -> CodeResult
    requires { CodeReady which unit «data».old }
    ensures { result_with result «data».new log.new
        ≡ decoded_step which (decode_of which word) unit (interrupt_of word) used «data».old log.old }
{
    match decode(which, word) {
        Ok(code) => execute(which, code, unit, word / 0x8000_0000 == 1, data, log, used),
        Err(e) => answered(Err(e), unit, used),
    }
}
