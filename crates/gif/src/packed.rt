// PACKED data: a write by its descriptor.
ghost use Rattle.std.specs.Prelude.{◌≡◌, ◌<◌};
ghost use Rattle.gif.specs.Log.{write};
ghost use Rattle.gif.specs.Packed.{rgbaq, uv, xyzf, xyz, redirected, packed_writes, packed_q};
ghost use Rattle.gif.specs.Inner.{listed, quadword_of};

use super::{Quadword, Write, Writes};

fn one(register: u64, value: u64) -> Writes
    ensures { result ≡ Writes.One (write register value) }
{
    Writes::One(Write { register, value })
}

fn rgbaq_value(q: u32, quad: Quadword) -> u64
    ensures { result ≡ rgbaq q (quadword_of quad) }
{
    quad.low % 256
        + quad.low / 0x1_0000_0000 % 256 * 256
        + quad.high % 256 * 65536
        + quad.high / 0x1_0000_0000 % 256 * 0x0100_0000
        + u64::from(q) * 0x1_0000_0000
}

fn uv_value(quad: Quadword) -> u64
    ensures { result ≡ uv (quadword_of quad) }
{
    quad.low % 16384 + quad.low / 0x1_0000_0000 % 16384 * 65536
}

fn xyzf_value(quad: Quadword) -> u64
    ensures { result ≡ xyzf (quadword_of quad) }
{
    quad.low % 65536
        + quad.low / 0x1_0000_0000 % 65536 * 65536
        + quad.high / 16 % 0x0100_0000 * 0x1_0000_0000
        + quad.high / 0x10_0000_0000 % 256 * 0x100_0000_0000_0000
}

fn xyz_value(quad: Quadword) -> u64
    ensures { result ≡ xyz (quadword_of quad) }
{
    quad.low % 65536
        + quad.low / 0x1_0000_0000 % 65536 * 65536
        + quad.high % 0x1_0000_0000 * 0x1_0000_0000
}

fn redirect(register: u64, quad: Quadword) -> u64
    requires { register < 16 }
    ensures { result ≡ redirected register (quadword_of quad) }
{
    if quad.high / 0x8000_0000_0000 % 2 == 1 {
        register + 8
    } else {
        register
    }
}

pub(crate) fn packed_writes(descriptor: u64, q: u32, quad: Quadword) -> Writes
    ensures { listed result ≡ packed_writes descriptor q (quadword_of quad) }
{
    match descriptor {
        0x0 => one(0x0, quad.low % 2048),
        0x1 => one(0x1, rgbaq_value(q, quad)),
        0x3 => one(0x3, uv_value(quad)),
        0x4 => one(redirect(0x4, quad), xyzf_value(quad)),
        0x5 => one(redirect(0x5, quad), xyz_value(quad)),
        0xa => one(0xa, quad.high / 0x10_0000_0000 % 256 * 0x100_0000_0000_0000),
        0xe => one(quad.high % 256, quad.low),
        0xf => Writes::Nothing,
        _ => one(descriptor, quad.low),
    }
}

// The same, with descriptor E tried first, the most frequent one.
pub(crate) fn often_writes(descriptor: u64, q: u32, quad: Quadword) -> Writes
    ensures { listed result ≡ packed_writes descriptor q (quadword_of quad) }
{
    if descriptor == 0xe {
        return one(quad.high % 256, quad.low);
    }
    packed_writes(descriptor, q, quad)
}

pub(crate) fn packed_q(descriptor: u64, q: u32, quad: Quadword) -> u32
    ensures { result ≡ packed_q descriptor q (quadword_of quad) }
{
    if descriptor == 2 {
        (quad.high % 0x1_0000_0000) as u32
    } else {
        q
    }
}
