// The range of a waiting UNPACK.
ghost use Rattle.std.specs.Prelude.{◌≡◌};
ghost use Rattle.unpack_rules.specs.Range.{unpacking_in_range};

use super::payload::payload_words;
use unpack_rules::{ADDRESS_MOST, Format, Unpacking, vectors_before};

// Whether a waiting UNPACK is in its range under CL and WL.
#[tactic(auto, using(unpack_rules::proofs::CycleLaws::vectors_few), unfolding(unpack_rules::specs::Range::unpacking_in_range))]
pub fn unpacking_in_range(f: Format, cl: u32, wl: u32, u: Unpacking) -> bool
    ensures { result ≡ unpacking_in_range f cl wl u }
{
    u.address <= ADDRESS_MOST
        && 1 <= u.count
        && u.count <= 256
        && 1 <= u.due
        && u.due <= payload_words(f, vectors_before(cl, wl, u.count))
}
