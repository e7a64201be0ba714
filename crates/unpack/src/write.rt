// Vectors written to data memory.
ghost use Rattle.std.specs.Prelude.{◌≡◌, false, [], ◌∷◌, ◌<◌, ◌≤◌, ◌+◌, ◌*◌, length, get_or};
ghost use Rattle.fields.specs.Fields.{if};
ghost use Rattle.unpack_rules.specs.Position.{filling, address_most, position_of};
ghost use Rattle.unpack_rules.specs.Mask.{row_of_cycle, code_row};
ghost use Rattle.unpack_rules.specs.Write.{rows_after, put_field, written_at, written, write_vector, registers_at};
ghost use Rattle.unpack_rules.specs.Whole.{store_quadword};
ghost use Rattle.unpack_rules.specs.Range.{CycleFits};
ghost use Rattle.unpack_rules.specs.Inner.{MemoryFits};

use unpack_rules::{Registers, cycles_before, field, is_plain, next_rows, place_in_cycle, wrapped};

// The writes of an UNPACK from number `first` to below `last`, to a memory of `size` quadwords.
#[derive(Clone, Copy)]
pub(crate) struct Writes {
    pub(crate) size: u32,
    pub(crate) address: u32,
    pub(crate) registers: Registers,
    pub(crate) first: u32,
    pub(crate) last: u32,
}

impl Writes {
    // The quadword that write i goes to, where none fills.
    fn position(self, i: u32) -> u32
        requires { let r = self.registers in CycleFits r.cl r.wl × (filling r.cl r.wl ≡ false) × (0 < self.size)
            × (self.address ≤ address_most) × (i ≤ 255) }
        ensures { result ≡ position_of self.size self.address self.registers.cl self.registers.wl i }
    {
        let r = self.registers;
        let start = cycles_before(r.wl, i) * r.cl;
        wrapped(self.size, self.address + start + place_in_cycle(r.wl, i))
    }

    // The quadword that write i goes to.
    pub(crate) fn place(self, i: u32) -> u32
        requires { let r = self.registers in CycleFits r.cl r.wl × (0 < self.size) × (self.address ≤ address_most) × (i ≤ 255) }
        ensures { result ≡ position_of self.size self.address self.registers.cl self.registers.wl i }
    {
        if self.registers.cl < self.registers.wl {
            wrapped(self.size, self.address + i)
        } else {
            self.position(i)
        }
    }
}

fn put_field(data: &mut [u32], at: usize, code: u32, mode: u32, x: u32, row: u32, col: u32)
    requires { at < length «data».old }
    ensures { «data».new ≡ put_field «data».old at code mode x row col }
{
    data[at] = field(code, mode, x, row, col, data[at]);
}

// The four fields of a quadword.
fn put_fields(
    data: &mut [u32],
    quad: usize,
    fields: [u32; 4],
    row: [u32; 4],
    col: u32,
    codes: [u32; 4],
    mode: u32,
)
    requires { 4 * quad + 4 ≤ length «data».old }
    ensures { «data».new ≡ written_at «data».old quad fields row col codes mode }
{
    let at = 4 * quad;
    put_field(data, at, codes[0], mode, fields[0], row[0], col);
    put_field(data, at + 1, codes[1], mode, fields[1], row[1], col);
    put_field(data, at + 2, codes[2], mode, fields[2], row[2], col);
    put_field(data, at + 3, codes[3], mode, fields[3], row[3], col);
}

// Four words stored at a quadword.
pub(crate) fn store_quadword(data: &mut [u32], quad: usize, words: [u32; 4])
    requires { 4 * quad + 4 ≤ length «data».old }
    ensures { «data».new ≡ store_quadword «data».old quad words }
{
    let at = 4 * quad;
    data[at] = words[0];
    data[at + 1] = words[1];
    data[at + 2] = words[2];
    data[at + 3] = words[3];
}

// A quadword by itself. Beside `write_fields` of vectors, which tests nothing: with it single words of V4-5 took 8% longer.
fn write_quadword(
    data: &mut [u32],
    quad: usize,
    fields: [u32; 4],
    row: [u32; 4],
    col: u32,
    codes: [u32; 4],
    mode: u32,
) -> [u32; 4]
    requires { 4 * quad + 4 ≤ length «data».old }
    ensures { (result ≡ rows_after codes mode fields row) × («data».new ≡ written_at «data».old quad fields row col codes mode) }
{
    if is_plain(codes, mode) {
        store_quadword(data, quad, fields);
        return row;
    }
    put_fields(data, quad, fields, row, col, codes, mode);
    next_rows(codes, mode, fields, row)
}

// Write i of an UNPACK, with the mask's codes and COL of its row.
pub(crate) fn write_at(
    w: Writes,
    i: u32,
    fields: [u32; 4],
    codes: [u32; 4],
    col: u32,
    row: [u32; 4],
    data: &mut [u32],
) -> [u32; 4]
    requires { let r = w.registers in CycleFits r.cl r.wl × MemoryFits w.size «data».old × (w.address ≤ address_most) × (i ≤ 255)
        × (codes ≡ code_row r.mask (row_of_cycle r.wl i)) × (col ≡ get_or r.col (row_of_cycle r.wl i) 0) }
    ensures { written result «data».new
        ≡ write_vector w.size w.address (registers_at w.registers i) i fields (written row «data».old) }
{
    let quad = w.place(i);
    let mode = w.registers.mode_at(i);
    write_quadword(data, quad as usize, fields, row, col, codes, mode)
}

// Write i of an UNPACK with CL 0, with the mask's codes and COL of its row.
pub(crate) fn fill_at(w: Writes, i: u32, codes: [u32; 4], col: u32, row: [u32; 4], data: &mut [u32])
    requires { let r = w.registers in CycleFits r.cl r.wl × (r.cl ≡ 0) × MemoryFits w.size «data».old × (w.address ≤ address_most) × (i ≤ 255)
        × (codes ≡ code_row r.mask (row_of_cycle r.wl i)) × (col ≡ get_or r.col (row_of_cycle r.wl i) 0) }
    ensures { written row «data».new
        ≡ write_vector w.size w.address (registers_at w.registers i) i (0 ∷ 0 ∷ 0 ∷ 0 ∷ []) (written row «data».old) }
{
    let quad = wrapped(w.size, w.address + i);
    put_fields(data, quad as usize, [0; 4], row, col, codes, 0);
}
