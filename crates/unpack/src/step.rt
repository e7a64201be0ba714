// One payload word of an UNPACK.
ghost use Rattle.std.specs.Prelude.{◌≡◌, [], ◌-◌, ◌≤◌, ◌+◌};
ghost use Rattle.unpack_rules.specs.Position.{address_most};
ghost use Rattle.unpack_rules.specs.Write.{written, writes_from};
ghost use Rattle.unpack_rules.specs.Range.{CycleFits, UnpackingFits};
ghost use Rattle.unpack_rules.specs.Inner.{MemoryFits, VectorIn, WordFits, CompletedFits, completed_writes, UnfedFits};
ghost use Rattle.unpack_rules.specs.Step.{acting, held_vector, unpack_word, left, acceptable, take_of, unfed_acceptable, unfed_of};

use super::cycle::{vectors_after, writes_done};
use super::payload::{payload_words, whole_vectors};
use super::range::unpacking_in_range;
use super::short::{goes_short, take_short};
use super::vector::vector;
use super::write::{Writes, fill_at, write_at};
use unpack_rules::{
    ADDRESS_MOST, ADDRESSES, Format, Registers, Unpacking, cycle_in_range, mask_of, row_of_cycle,
    unfold_mask, vectors_before,
};

// The registers as an UNPACK reads them.
pub(crate) fn acting_registers(f: Format, u: Unpacking, r: Registers) -> Registers
    ensures { result ≡ acting f u r }
{
    Registers {
        mode: if f.is_five() { 0 } else { r.mode },
        mask: mask_of(u.masked, r.mask),
        ..r
    }
}

// Vector i, from the three words held and word k.
fn held_vector(f: Format, u: Unpacking, word: u32, k: u32, i: u32) -> [u32; 4]
    requires { VectorIn f k i × (k ≤ 1024) × (i ≤ 255) }
    ensures { result ≡ held_vector f u word k i }
{
    let at = i * f.vector_bits() + 96 - 32 * k;
    vector(f, u.usn, [u.first, u.second, u.third, word], at)
}

// The writes from number `from` to below `to`, which word k completes.
fn write_vectors(
    w: Writes,
    f: Format,
    u: Unpacking,
    word: u32,
    k: u32,
    row: [u32; 4],
    data: &mut [u32],
) -> [u32; 4]
    requires { WordFits w.size f u w.registers k w.first w.last «data».old × (w.address ≤ address_most) }
    ensures { written result «data».new
        ≡ writes_from w.size w.address w.registers (held_vector f u word k) (w.last - w.first) w.first (written row «data».old) }
{
    let r = w.registers;
    let codes = unfold_mask(r.mask);
    let col = r.col;
    let mut rows = row;
    let mut vectors = vectors_before(r.cl, r.wl, w.first);
    for i in w.first..w.last {
        vectors = vectors_after(r.cl, r.wl, vectors, i);
        let fields = held_vector(f, u, word, k, vectors - 1);
        let c = row_of_cycle(r.wl, i) as usize;
        let next = write_at(w, i, fields, codes[c], col[c], rows, data);
        rows = next;
    }
    rows
}

// The vectors from number `from` to below `to`, which word k completes, and the fills after them.
pub(crate) fn write_completed(
    size: u32,
    f: Format,
    u: Unpacking,
    r: Registers,
    word: u32,
    k: u32,
    from: u32,
    to: u32,
    row: [u32; 4],
    data: &mut [u32],
) -> [u32; 4]
    requires { CompletedFits size f u r k from to «data».old }
    ensures { written result «data».new
        ≡ completed_writes size f u r word k from to (written row «data».old) }
{
    let writes = Writes {
        size,
        address: u.address,
        registers: acting_registers(f, u, r),
        first: writes_done(r.cl, r.wl, from, u.count),
        last: writes_done(r.cl, r.wl, to, u.count),
    };
    write_vectors(writes, f, u, word, k, row, data)
}

// The next payload word, where all was tested.
fn take(
    size: u32,
    f: Format,
    u: Unpacking,
    r: Registers,
    word: u32,
    row: [u32; 4],
    data: &mut [u32],
) -> [u32; 4]
    requires { CycleFits r.cl r.wl × UnpackingFits f r.cl r.wl u × MemoryFits size «data».old }
    ensures { written result «data».new ≡ unpack_word size f u r word (written row «data».old) }
{
    if goes_short(f, u, r) {
        take_short(size, u, r, word, data);
        return row;
    }
    let vectors = vectors_before(r.cl, r.wl, u.count);
    let k = payload_words(f, vectors) - u.due;
    let from = whole_vectors(f, vectors, k);
    let to = whole_vectors(f, vectors, k + 1);
    if from == to {
        return row;
    }
    write_completed(size, f, u, r, word, k, from, to, row, data)
}

// The next payload word of an UNPACK, in a memory of `size` quadwords, on any input at all.
pub fn take_word(
    size: u32,
    f: Format,
    u: Unpacking,
    r: Registers,
    word: u32,
    row: [u32; 4],
    data: &mut [u32],
) -> Option<[u32; 4]>
    ensures { left row result «data».new ≡ take_of size f u r word row «data».old }
{
    if acceptable_input(size, f, u, r, data) {
        Some(take(size, f, u, r, word, row, data))
    } else {
        None
    }
}

#[tactic(auto, unfolding(unpack_rules::specs::Step::acceptable))]
pub(crate) fn acceptable_input(
    size: u32,
    f: Format,
    u: Unpacking,
    r: Registers,
    data: &[u32],
) -> bool
    ensures { result ≡ acceptable size f u r «data».now }
{
    1 <= size
        && size <= ADDRESSES
        && data.len() == 4 * size as usize
        && cycle_in_range(r.cl, r.wl)
        && unpacking_in_range(f, r.cl, r.wl, u)
}

// All writes of an UNPACK with CL 0, each a fill without a vector before it.
fn write_unfed(size: u32, u: Unpacking, r: Registers, row: [u32; 4], data: &mut [u32])
    requires { UnfedFits size u r «data».old }
    ensures { written row «data».new
        ≡ writes_from size u.address r (λ j. []) u.count 0 (written row «data».old) }
{
    let codes = unfold_mask(r.mask);
    let col = r.col;
    let writes = Writes {
        size,
        address: u.address,
        registers: r,
        first: 0,
        last: u.count,
    };
    for i in 0..u.count {
        let c = row_of_cycle(r.wl, i) as usize;
        fill_at(writes, i, codes[c], col[c], row, data);
    }
}

#[tactic(auto, unfolding(unpack_rules::specs::Step::unfed_acceptable))]
fn unfed_acceptable(size: u32, u: Unpacking, r: Registers, data: &[u32]) -> bool
    ensures { result ≡ unfed_acceptable size u r «data».now }
{
    1 <= size
        && size <= ADDRESSES
        && data.len() == 4 * size as usize
        && cycle_in_range(r.cl, r.wl)
        && r.cl == 0
        && u.address <= ADDRESS_MOST
        && u.count <= 256
}

// The writes of an UNPACK code with CL 0, which has no payload, in a memory of `size` quadwords, on any input at all.
pub fn write_without_payload(
    size: u32,
    f: Format,
    u: Unpacking,
    r: Registers,
    row: [u32; 4],
    data: &mut [u32],
) -> Option<[u32; 4]>
    ensures { left row result «data».new ≡ unfed_of size f u r row «data».old }
{
    if unfed_acceptable(size, u, r, data) {
        let s = acting_registers(f, u, r);
        write_unfed(size, u, s, row, data);
        Some(row)
    } else {
        None
    }
}
