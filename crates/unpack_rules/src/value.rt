// The fields of a write: mask code, MODE and ROW.
ghost use Rattle.std.specs.Prelude.{◌≡◌};
ghost use Rattle.fields.specs.Fields.{if};
ghost use Rattle.unpack_rules.specs.Write.{added, row_of, data_of, field_of, rows_after, registers_at};
ghost use Rattle.unpack_rules.specs.Inner.{plain};

use super::Registers;
use super::cycle::is_fill;

#[tactic(auto, unfolding(crate::specs::Write::added))]
fn add(x: u32, y: u32) -> u32
    ensures { result ≡ added x y }
{
    x.wrapping_add(y)
}

// Without a branch, so that the four fields of a write are computed side by side.
fn choose(first: bool, x: u32, y: u32) -> u32
    ensures { result ≡ if first x y }
{
    if first { x } else { y }
}

fn next_row(code: u32, mode: u32, x: u32, row: u32) -> u32
    ensures { result ≡ row_of code mode x row }
{
    let next = choose(mode == 2, add(x, row), row);
    choose(code == 0, next, row)
}

fn data_of(mode: u32, x: u32, row: u32) -> u32
    ensures { result ≡ data_of mode x row }
{
    let sum = add(x, row);
    choose(mode == 1, sum, choose(mode == 2, sum, x))
}

pub fn field(code: u32, mode: u32, x: u32, row: u32, col: u32, old: u32) -> u32
    ensures { result ≡ field_of code mode x row col old }
{
    let other = choose(code == 1, row, choose(code == 2, col, old));
    choose(code == 0, data_of(mode, x, row), other)
}

pub fn next_rows(codes: [u32; 4], mode: u32, fields: [u32; 4], row: [u32; 4]) -> [u32; 4]
    ensures { result ≡ rows_after codes mode fields row }
{
    [
        next_row(codes[0], mode, fields[0], row[0]),
        next_row(codes[1], mode, fields[1], row[1]),
        next_row(codes[2], mode, fields[2], row[2]),
        next_row(codes[3], mode, fields[3], row[3]),
    ]
}

// Whether a write stores its data as it is and leaves ROW.
#[tactic(auto, unfolding(crate::specs::Inner::plain))]
pub fn is_plain(codes: [u32; 4], mode: u32) -> bool
    ensures { result ≡ plain codes mode }
{
    mode == 0 && codes[0] == 0 && codes[1] == 0 && codes[2] == 0 && codes[3] == 0
}

impl Registers {
    // MODE of write i: a fill is without.
    pub fn mode_at(self, i: u32) -> u32
        ensures { result ≡ (registers_at self i).mode }
    {
        if is_fill(self.cl, self.wl, i) {
            0
        } else {
            self.mode
        }
    }
}
