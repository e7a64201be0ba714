// Whole vectors at once: each is read where it lies in main memory.
ghost use Rattle.std.specs.Prelude.{◌≡◌, true, ◌&&◌, ℕ, ◌<◌, ◌≤◌, ◌+◌, ◌*◌, ◌-◌, ◌%◌, ◌^◌, length, eqb, leb};
ghost use Rattle.fields.specs.Fields.{if};
ghost use Rattle.fields.specs.Memory.{word_at};
ghost use Rattle.unpack_rules.specs.Payload.{element_bits, elements};
ghost use Rattle.unpack_rules.specs.Vector.{extended};
ghost use Rattle.unpack_rules.specs.Position.{address_most, filling, position_of, vectors_before};
ghost use Rattle.unpack_rules.specs.Write.{rows_after, written_at, written, writes_from};
ghost use Rattle.unpack_rules.specs.Whole.{store_quadword, words_from, take_words};
ghost use Rattle.unpack_rules.specs.Inner.{Width, MemoryFits};
ghost use Rattle.unpack.specs.Short.{stores_from};
ghost use Rattle.unpack.specs.Vectors.{Scalar, vector_bytes, vector_in, vector_from, quad_of, vector_of, fields_after, WritesFit, ReadsFit, VectorsFit};

use super::copy::{next_in_cycle, next_vector, stride, word_inside};
use super::cycle::writes_done;
use super::payload::{payload_words, whole_vectors};
use super::step::acting_registers;
use super::vector::extend;
use super::write::{Writes, store_quadword};
use unpack_rules::{
    Format, Registers, Unpacking, field, five_fields, next_rows, place_in_cycle, unfold_mask,
    vectors_before, wrapped,
};

// The element at a byte.
fn element_inside(main: &[u8], at: usize, width: u32) -> u32
    requires { Width width × (at + 4 ≤ length main.now) }
    ensures { (result ≡ word_at main.now at % 2 ^ width) × (result < 2 ^ width) }
{
    (u64::from(word_inside(main, at)) % (1u64 << width)) as u32
}

fn extended_inside(main: &[u8], at: usize, width: u32, usn: bool) -> u32
    requires { Width width × (at + 4 ≤ length main.now) }
    ensures { result ≡ extended width usn (word_at main.now at % 2 ^ width) }
{
    extend(element_inside(main, at, width), width, usn)
}

// The vector of one element at a byte, stored at a quadword as it is.
fn store_scalar(
    f: Format,
    width: u32,
    usn: bool,
    main: &[u8],
    at: usize,
    data: &mut [u32],
    quad: usize,
)
    requires { (at + vector_bytes f + 4 ≤ length main.now) × (4 * quad + 4 ≤ length «data».old) × (width ≡ element_bits f) × Scalar f }
    ensures { «data».new ≡ store_quadword «data».old quad (vector_in f usn main.now at) }
{
    let x = extended_inside(main, at, width, usn);
    store_quadword(data, quad, [x, x, x, x]);
}

// The vector at a byte, of n elements of a width, stored at a quadword as it is.
fn store_vector(
    f: Format,
    n: u32,
    width: u32,
    usn: bool,
    main: &[u8],
    at: usize,
    data: &mut [u32],
    quad: usize,
)
    requires { (at + vector_bytes f + 4 ≤ length main.now) × (4 * quad + 4 ≤ length «data».old) × (width ≡ element_bits f) × (n ≡ elements f) }
    ensures { «data».new ≡ store_quadword «data».old quad (vector_in f usn main.now at) }
{
    if f.is_five() {
        let fields = five_fields(element_inside(main, at, width));
        store_quadword(data, quad, fields);
        return;
    }
    let size = (width / 8) as usize;
    let x = extended_inside(main, at, width, usn);
    if n == 1 {
        store_quadword(data, quad, [x, x, x, x]);
        return;
    }
    let y = extended_inside(main, at + size, width, usn);
    if n == 2 {
        store_quadword(data, quad, [x, y, x, y]);
        return;
    }
    let z = extended_inside(main, at + 2 * size, width, usn);
    if n == 3 {
        store_quadword(data, quad, [x, y, z, 0]);
        return;
    }
    let w = extended_inside(main, at + 3 * size, width, usn);
    store_quadword(data, quad, [x, y, z, w]);
}

fn vector_bytes(f: Format) -> usize
    ensures { result ≡ vector_bytes f }
{
    (f.vector_bits() / 8) as usize
}

// n vectors of one element from a byte on, stored one after another from a quadword on. Beside `store_vectors`, so that the loop holds no test of the elements.
fn store_scalars(
    f: Format,
    width: u32,
    usn: bool,
    main: &[u8],
    a: usize,
    n: usize,
    data: &mut [u32],
    to: usize,
)
    requires { (a + vector_bytes f * n + 4 ≤ length main.now) × (4 * (to + n) ≤ length «data».old) × (width ≡ element_bits f) × Scalar f }
    ensures { «data».new
        ≡ stores_from (λ (i : ℕ). to + i) (vector_from f usn main.now a 0) n 0 «data».old }
{
    let bytes = (width / 8) as usize;
    let mut at = a;
    for j in 0..n {
        store_scalar(f, width, usn, main, at, data, to + j);
        at += bytes;
    }
}

// The same, in a loop for a width and USN that are known where it is compiled.
fn store_scalars_by(
    f: Format,
    width: u32,
    usn: bool,
    main: &[u8],
    a: usize,
    n: usize,
    data: &mut [u32],
    to: usize,
)
    requires { (a + vector_bytes f * n + 4 ≤ length main.now) × (4 * (to + n) ≤ length «data».old) × (width ≡ element_bits f) × Scalar f }
    ensures { «data».new
        ≡ stores_from (λ (i : ℕ). to + i) (vector_from f usn main.now a 0) n 0 «data».old }
{
    if usn {
        store_scalars(f, width, true, main, a, n, data, to);
        return;
    }
    if width == 8 {
        store_scalars(f, 8, false, main, a, n, data, to);
        return;
    }
    store_scalars(f, width, false, main, a, n, data, to);
}

// Whether a vector is one element, extended.
fn is_scalar(f: Format) -> bool
    ensures { result ≡ true → Scalar f }
{
    matches!(f, Format::S32 | Format::S16 | Format::S8)
}

// n vectors from a byte on, stored one after another from a quadword on.
fn store_run(f: Format, usn: bool, main: &[u8], a: usize, n: usize, data: &mut [u32], to: usize)
    requires { (a + vector_bytes f * n + 4 ≤ length main.now) × (4 * (to + n) ≤ length «data».old) }
    ensures { «data».new
        ≡ stores_from (λ (i : ℕ). to + i) (vector_from f usn main.now a 0) n 0 «data».old }
{
    if is_scalar(f) {
        store_scalars_by(f, f.element_bits(), usn, main, a, n, data, to);
        return;
    }
    store_vectors(f, usn, main, a, n, data, to);
}

// The same for vectors of any format.
fn store_vectors(f: Format, usn: bool, main: &[u8], a: usize, n: usize, data: &mut [u32], to: usize)
    requires { (a + vector_bytes f * n + 4 ≤ length main.now) × (4 * (to + n) ≤ length «data».old) }
    ensures { «data».new
        ≡ stores_from (λ (i : ℕ). to + i) (vector_from f usn main.now a 0) n 0 «data».old }
{
    let bytes = vector_bytes(f);
    let width = f.element_bits();
    let elements = f.elements();
    let mut at = a;
    for j in 0..n {
        store_vector(f, elements, width, usn, main, at, data, to + j);
        at += bytes;
    }
}

// Vector after vector, up to the wrap and on from it.
fn store_runs(w: Writes, f: Format, usn: bool, main: &[u8], a: usize, data: &mut [u32])
    requires { MemoryFits w.size «data».old × (w.address ≤ address_most) × (w.last ≤ 256) × (w.first ≤ w.last)
        × (a + vector_bytes f * (w.last - w.first) + 4 ≤ length main.now) }
    ensures { «data».new
        ≡ stores_from (λ (i : ℕ). (w.address + i) % w.size) (vector_from f usn main.now a w.first) (w.last - w.first) w.first «data».old }
{
    let bytes = vector_bytes(f);
    let mut i = w.first;
    let mut at = a;
    // no `for`: it goes on by a run's length
    while i < w.last {
        let quad = wrapped(w.size, w.address + i);
        let run = (w.last - i).min(w.size - quad);
        store_run(f, usn, main, at, run as usize, data, quad as usize);
        at += bytes * run as usize;
        i += run;
    }
}

fn quad_of(xs: &[u32], quad: usize) -> [u32; 4]
    requires { 4 * quad + 4 ≤ length xs.now }
    ensures { result ≡ quad_of xs.now quad }
{
    let at = 4 * quad;
    [xs[at], xs[at + 1], xs[at + 2], xs[at + 3]]
}

// Write after write of vectors read, as they are, their places advanced.
fn store_apart(w: Writes, xs: &[u32], data: &mut [u32])
    requires { let r = w.registers in WritesFit w.size w.address r.cl r.wl w.first w.last «data».old × (1024 ≤ length xs.now) }
    ensures { let r = w.registers in «data».new
        ≡ stores_from (position_of w.size w.address r.cl r.wl) (vector_of xs.now r.cl r.wl w.first) (w.last - w.first) w.first
        «data».old }
{
    let r = w.registers;
    let mut quad = w.place(w.first);
    let mut cycle = place_in_cycle(r.wl, w.first);
    let mut index = 0;
    for _i in w.first..w.last {
        store_quadword(data, quad as usize, quad_of(xs, index));
        quad = wrapped(w.size, quad + stride(r.cl, r.wl, cycle));
        cycle = next_in_cycle(r.wl, cycle);
        index = next_vector::<1>(r.cl, cycle, index);
    }
}

// MODE of a write at a place of its cycle: a fill is without.
fn mode_in(cl: u32, wl: u32, mode: u32, cycle: u32) -> u32
    ensures { result ≡ if (filling cl wl && leb cl cycle) 0 mode }
{
    if cl < wl && cl <= cycle { 0 } else { mode }
}

fn next_fields(
    codes: [u32; 4],
    mode: u32,
    fields: [u32; 4],
    row: [u32; 4],
    col: u32,
    old: [u32; 4],
) -> [u32; 4]
    ensures { result ≡ fields_after codes mode fields row col old }
{
    [
        field(codes[0], mode, fields[0], row[0], col, old[0]),
        field(codes[1], mode, fields[1], row[1], col, old[1]),
        field(codes[2], mode, fields[2], row[2], col, old[2]),
        field(codes[3], mode, fields[3], row[3], col, old[3]),
    ]
}

// The four fields of a quadword, written side by side.
fn write_fields(
    data: &mut [u32],
    quad: usize,
    fields: [u32; 4],
    row: [u32; 4],
    col: u32,
    codes: [u32; 4],
    mode: u32,
) -> [u32; 4]
    requires { 4 * quad + 4 ≤ length «data».old }
    ensures { (result ≡ rows_after codes mode fields row) × («data».new ≡ written_at «data».old quad fields row col codes mode) }
{
    let old = quad_of(data, quad);
    let words = next_fields(codes, mode, fields, row, col, old);
    store_quadword(data, quad, words);
    next_rows(codes, mode, fields, row)
}

// Write after write of vectors read, with the mask's codes and MODE, their places advanced.
fn write_apart(w: Writes, xs: &[u32], row: [u32; 4], data: &mut [u32]) -> [u32; 4]
    requires { let r = w.registers in WritesFit w.size w.address r.cl r.wl w.first w.last «data».old × (1024 ≤ length xs.now) }
    ensures { let r = w.registers in written result «data».new
        ≡ writes_from w.size w.address r (λ (v : ℕ). quad_of xs.now (v - vectors_before r.cl r.wl w.first)) (w.last - w.first) w.first
        (written row «data».old) }
{
    let r = w.registers;
    let codes = unfold_mask(r.mask);
    let col = r.col;
    let mut rows = row;
    let mut quad = w.place(w.first);
    let mut cycle = place_in_cycle(r.wl, w.first);
    let mut index = 0;
    for _i in w.first..w.last {
        let fields = quad_of(xs, index);
        let c = cycle.min(3) as usize;
        let mode = mode_in(r.cl, r.wl, r.mode, cycle);
        let after = write_fields(data, quad as usize, fields, rows, col[c], codes[c], mode);
        rows = after;
        quad = wrapped(w.size, quad + stride(r.cl, r.wl, cycle));
        cycle = next_in_cycle(r.wl, cycle);
        index = next_vector::<1>(r.cl, cycle, index);
    }
    rows
}

// Whether writes store their data as it is and leave ROW, whatever their place in the cycle.
fn is_bare(r: Registers) -> bool
    ensures { result ≡ (eqb r.mode 0 && eqb r.mask 0) }
{
    r.mode == 0 && r.mask == 0
}

// The writes from number `first` to below `last`, whose n vectors are read before them.
fn write_read(
    w: Writes,
    n: u32,
    f: Format,
    usn: bool,
    main: &[u8],
    a: usize,
    row: [u32; 4],
    data: &mut [u32],
) -> [u32; 4]
    requires { let r = w.registers in WritesFit w.size w.address r.cl r.wl w.first w.last «data».old × ReadsFit f r.cl r.wl w.first w.last n a main.now }
    ensures { let r = w.registers in written result «data».new
        ≡ writes_from w.size w.address r (vector_from f usn main.now a (vectors_before r.cl r.wl w.first)) (w.last - w.first) w.first
        (written row «data».old) }
{
    let mut xs = [0u32; 1024];
    store_run(f, usn, main, a, n as usize, &mut xs, 0);
    if is_bare(w.registers) {
        store_apart(w, &xs, data);
        return row;
    }
    write_apart(w, &xs, row, data)
}

// The writes from number `first` to below `last`, whose n vectors lie in main memory from byte a on.
fn write_all(
    w: Writes,
    n: u32,
    f: Format,
    usn: bool,
    main: &[u8],
    a: usize,
    row: [u32; 4],
    data: &mut [u32],
) -> [u32; 4]
    requires { let r = w.registers in WritesFit w.size w.address r.cl r.wl w.first w.last «data».old × ReadsFit f r.cl r.wl w.first w.last n a main.now }
    ensures { let r = w.registers in written result «data».new
        ≡ writes_from w.size w.address r (vector_from f usn main.now a (vectors_before r.cl r.wl w.first)) (w.last - w.first) w.first
        (written row «data».old) }
{
    let r = w.registers;
    if r.cl == r.wl && is_bare(r) {
        store_runs(w, f, usn, main, a, data);
        return row;
    }
    write_read(w, n, f, usn, main, a, row, data)
}

// The next n payload words, with the first of which a vector begins.
pub(crate) fn take_vectors(
    size: u32,
    f: Format,
    u: Unpacking,
    r: Registers,
    main: &[u8],
    a: usize,
    n: u32,
    row: [u32; 4],
    data: &mut [u32],
) -> [u32; 4]
    requires { VectorsFit size f u r a n main.now «data».old }
    ensures { written result «data».new
        ≡ take_words size f u r (words_from main.now a n) (written row «data».old) }
{
    let vectors = vectors_before(r.cl, r.wl, u.count);
    let k = payload_words(f, vectors) - u.due;
    let from = whole_vectors(f, vectors, k);
    let to = whole_vectors(f, vectors, k + n);
    let writes = Writes {
        size,
        address: u.address,
        registers: acting_registers(f, u, r),
        first: writes_done(r.cl, r.wl, from, u.count),
        last: writes_done(r.cl, r.wl, to, u.count),
    };
    write_all(writes, to - from, f, u.usn, main, a, row, data)
}
