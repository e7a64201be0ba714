// Formats and the size of their payload.
ghost use Rattle.std.specs.Prelude.{◌≡◌, ◌≤◌};
ghost use Rattle.unpack_rules.specs.Payload.{payload_words, whole_vectors};
ghost use Rattle.unpack_rules.specs.Step.{unpacking_of};

use unpack_rules::{ADDRESSES, Format, Unpacking, count_of, vectors_before};

pub(crate) fn payload_words(f: Format, count: u32) -> u32
    requires { count ≤ 256 }
    ensures { result ≡ payload_words f count }
{
    (count * f.vector_bits()).div_ceil(32)
}

// The vectors that lie wholly in the first words.
pub(crate) fn whole_vectors(f: Format, count: u32, words: u32) -> u32
    requires { words ≤ 1024 }
    ensures { result ≡ whole_vectors f count words }
{
    count.min(32 * words / f.vector_bits())
}

// An UNPACK code whose whole payload is due under CL and WL.
pub fn waiting_for(
    f: Format,
    cl: u32,
    wl: u32,
    address: u32,
    num: u32,
    usn: bool,
    masked: bool,
    interrupt: bool,
) -> Unpacking
    ensures { result ≡ unpacking_of f cl wl address num usn masked interrupt }
{
    let count = count_of(num);
    Unpacking {
        address: address % ADDRESSES,
        count,
        due: payload_words(f, vectors_before(cl, wl, count)),
        usn,
        masked,
        interrupt,
        first: 0,
        second: 0,
        third: 0,
    }
}
