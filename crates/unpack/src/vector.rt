// A vector's four fields from the payload words that hold it.
ghost use Rattle.std.specs.Prelude.{◌≡◌, ◌^◌, ◌≤◌, ◌<◌};
ghost use Rattle.unpack_rules.specs.Payload.{value};
ghost use Rattle.unpack_rules.specs.Vector.{extended, element, vector_at};
ghost use Rattle.unpack_rules.specs.Inner.{ElementFits, VectorFits};

use unpack_rules::{Format, five_fields};

// An element of a width as 32 bits.
pub(crate) fn extend(x: u32, width: u32, usn: bool) -> u32
    requires { (1 ≤ width) × (width ≤ 32) × (x < 2 ^ width) }
    ensures { result ≡ extended width usn x }
{
    if usn {
        return x;
    }
    let half = 1u32 << (width - 1);
    if x < half {
        x
    } else {
        x + (0xffff_ffff - (half - 1) - half)
    }
}

// The element that starts at a bit of four words; it lies in one of them.
fn element_at(words: [u32; 4], width: u32, at: u32) -> u32
    requires { ElementFits width at }
    ensures { (result ≡ element width (value words) at 0) × (result < 2 ^ width) }
{
    let word = words[at as usize / 32];
    ((u64::from(word) >> (at % 32)) % (1u64 << width)) as u32
}

fn extended_at(words: [u32; 4], width: u32, usn: bool, at: u32) -> u32
    requires { ElementFits width at }
    ensures { result ≡ extended width usn (element width (value words) at 0) }
{
    extend(element_at(words, width, at), width, usn)
}

// The four data fields of the vector that starts at a bit of four words.
pub(crate) fn vector(f: Format, usn: bool, words: [u32; 4], at: u32) -> [u32; 4]
    requires { VectorFits f at }
    ensures { result ≡ vector_at f usn (value words) at }
{
    let width = f.element_bits();
    if f.is_five() {
        return five_fields(element_at(words, width, at));
    }
    let n = f.elements();
    let x = extended_at(words, width, usn, at);
    if n == 1 {
        return [x, x, x, x];
    }
    let y = extended_at(words, width, usn, at + width);
    if n == 2 {
        return [x, y, x, y];
    }
    let z = extended_at(words, width, usn, at + 2 * width);
    if n == 3 {
        return [x, y, z, 0];
    }
    let w = extended_at(words, width, usn, at + 3 * width);
    [x, y, z, w]
}
