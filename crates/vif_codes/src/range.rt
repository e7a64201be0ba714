// The range of a unit.
ghost use Rattle.std.specs.Prelude.{◌≡◌, ◌&&◌, ◌+◌, leb};
ghost use Rattle.unpack_rules.specs.Range.{cycle_in_range, unpacking_in_range};
ghost use Rattle.vif_codes.specs.Codes.{mpg_address_most};
ghost use Rattle.vif_codes.specs.Range.{up_to, tops_most, bit_in_range, vif1_registers_in_range, registers_in_range, direct_in_range, waiting_in_range, unit_in_range};

use super::decoding::code_listed;
use super::{MPG_ADDRESS_MOST, Vif, Waiting};
use memories::VifUnit;
use unpack_rules::ADDRESS_MOST;

// A number from 1 to n.
#[tactic(auto, unfolding(crate::specs::Range::up_to))]
fn up_to(n: u32, x: u32) -> bool
    ensures { result ≡ up_to n x }
{
    1 <= x && x <= n
}

// The most that OFST, BASE, TOPS and TOP hold.
fn tops_most(which: VifUnit) -> u32
    ensures { result ≡ tops_most which }
{
    match which {
        VifUnit::Vif0 => 0,
        VifUnit::Vif1 => ADDRESS_MOST,
    }
}

// DBF or MSKPATH3.
fn bit_in_range(which: VifUnit, bit: bool) -> bool
    ensures { result ≡ bit_in_range which bit }
{
    match which {
        VifUnit::Vif0 => !bit,
        VifUnit::Vif1 => true,
    }
}

// The registers that VIF1 alone writes.
fn vif1_registers_in_range(which: VifUnit, unit: Vif) -> bool
    ensures { result ≡ vif1_registers_in_range which unit }
{
    let most = tops_most(which);
    unit.ofst <= most
        && unit.base <= most
        && unit.tops <= most
        && unit.top <= most
        && bit_in_range(which, unit.dbf)
        && bit_in_range(which, unit.mskpath3)
}

#[tactic(auto, unfolding(crate::specs::Range::registers_in_range))]
fn registers_in_range(which: VifUnit, unit: Vif) -> bool
    ensures { result ≡ registers_in_range which unit }
{
    unit.cl <= 255
        && unit.wl <= 255
        && unit.itops <= ADDRESS_MOST
        && unit.itop <= ADDRESS_MOST
        && unit.mode <= 2
        && unit.mark <= 65535
        && vif1_registers_in_range(which, unit)
}

fn mpg_in_range(address: u32, count: u32, due: u32) -> bool
    ensures { result ≡ (leb address mpg_address_most && (up_to 256 count && up_to (count + count) due)) }
{
    address <= MPG_ADDRESS_MOST && up_to(256, count) && up_to(count + count, due)
}

// A DIRECT or DIRECTHL, by its CMD.
#[tactic(auto, unfolding(crate::specs::Range::direct_in_range))]
fn direct_in_range(which: VifUnit, cmd: u32, due: u32) -> bool
    ensures { result ≡ direct_in_range which cmd due }
{
    code_listed(which, cmd) && up_to(65536, due)
}

#[tactic(auto, unfolding(crate::specs::Range::waiting_in_range))]
fn waiting_in_range(which: VifUnit, waiting: Waiting, cl: u32, wl: u32) -> bool
    ensures { result ≡ waiting_in_range which waiting cl wl }
{
    match waiting {
        Waiting::Nothing => true,
        Waiting::MaskDue(_) => true,
        Waiting::RowDue { due, .. } => up_to(4, due),
        Waiting::ColDue { due, .. } => up_to(4, due),
        Waiting::MpgDue {
            address,
            count,
            due,
            ..
        } => mpg_in_range(address, count, due),
        Waiting::DirectDue { due, .. } => direct_in_range(which, 0x50, due),
        Waiting::DirecthlDue { due, .. } => direct_in_range(which, 0x51, due),
        Waiting::UnpackDue(f, u) => unpack_in_range(cl, wl, f, u),
    }
}

fn unpack_in_range(cl: u32, wl: u32, f: unpack_rules::Format, u: unpack_rules::Unpacking) -> bool
    ensures { result ≡ (cycle_in_range cl wl && unpacking_in_range f cl wl u) }
{
    unpack_rules::cycle_in_range(cl, wl) && unpack::unpacking_in_range(f, cl, wl, u)
}

// Whether a unit is in its range.
#[tactic(auto, unfolding(crate::specs::Range::unit_in_range))]
pub fn unit_in_range(which: VifUnit, unit: Vif) -> bool
    ensures { result ≡ unit_in_range which unit }
{
    registers_in_range(which, unit) && waiting_in_range(which, unit.waiting, unit.cl, unit.wl)
}
