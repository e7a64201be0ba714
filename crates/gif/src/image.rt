// IMAGE data: two writes each quadword.
ghost use Rattle.std.specs.Prelude.{◌≡◌};
ghost use Rattle.gif.specs.Inner.{listed, image_writes};

use super::{Quadword, Write, Writes};

// The writes of a data quadword.
pub(crate) fn image_writes(quad: Quadword) -> Writes
    ensures { listed result ≡ image_writes quad.low quad.high }
{
    let lower = Write {
        register: 84,
        value: quad.low,
    };
    let upper = Write {
        register: 84,
        value: quad.high,
    };
    Writes::Two(lower, upper)
}
