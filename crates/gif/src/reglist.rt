// REGLIST data: two items each quadword.
ghost use Rattle.std.specs.Prelude.{◌≡◌, ◌++◌, ◌||◌, ◌*◌, ◌%◌, eqb, ltb};
ghost use Rattle.fields.specs.Fields.{if};
ghost use Rattle.gif.specs.Range.{TagFits};
ghost use Rattle.gif.specs.Tag.{descriptor_at};
ghost use Rattle.gif.specs.Reglist.{reglist_write};
ghost use Rattle.gif.specs.Inner.{listed};

use super::tag::descriptor_in;
use super::{HeldTag, Quadword, Write, Writes};

fn silent(descriptor: u64) -> bool
    ensures { result ≡ (eqb descriptor 14 || eqb descriptor 15) }
{
    descriptor == 14 || descriptor == 15
}

// The writes of a quadword's halves by their descriptors.
pub(crate) fn halves(first: u64, second: u64, quad: Quadword) -> Writes
    ensures { listed result ≡ reglist_write first quad.low ++ reglist_write second quad.high }
{
    let lower = Write {
        register: first,
        value: quad.low,
    };
    let upper = Write {
        register: second,
        value: quad.high,
    };
    match (silent(first), silent(second)) {
        (true, true) => Writes::Nothing,
        (true, false) => Writes::One(upper),
        (false, true) => Writes::One(lower),
        (false, false) => Writes::Two(lower, upper),
    }
}

// The descriptor of a quadword's high half, by its nibble; a dropped half has that of no write.
pub(crate) fn second_descriptor(tag: HeldTag, item: u32, nibble: u32) -> u64
    requires { TagFits tag × (nibble ≡ item % tag.nreg) }
    ensures { result ≡ if (ltb item (tag.nloop * tag.nreg)) (descriptor_at tag item) 15 }
{
    if item < tag.nloop * tag.nreg {
        descriptor_in(tag.descriptors, nibble)
    } else {
        15
    }
}
