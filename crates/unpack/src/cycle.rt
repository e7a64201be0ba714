// Vectors and writes of a cycle of WL writes.
ghost use Rattle.std.specs.Prelude.{◌≡◌, ◌<◌, ◌≤◌, ◌+◌, ◌/◌, ◌%◌};
ghost use Rattle.unpack_rules.specs.Position.{vectors_before, writes_done};
ghost use Rattle.unpack_rules.specs.Range.{CycleFits};

use unpack_rules::is_fill;

// The vectors that the writes up to write i take, from those that the writes before it take.
pub(crate) fn vectors_after(cl: u32, wl: u32, vectors: u32, i: u32) -> u32
    requires { (0 < wl) × (vectors ≡ vectors_before cl wl i) × (i ≤ 255) }
    ensures { result ≡ vectors_before cl wl (i + 1) }
{
    if is_fill(cl, wl, i) {
        vectors
    } else {
        vectors + 1
    }
}

// The writes done once so many vectors are whole.
pub(crate) fn writes_done(cl: u32, wl: u32, vectors: u32, n: u32) -> u32
    requires { CycleFits cl wl × (1 ≤ cl) × (vectors ≤ n) × (vectors ≤ 256) }
    ensures { result ≡ writes_done cl wl vectors n }
{
    if cl < wl {
        n.min(vectors / cl * wl + vectors % cl)
    } else {
        vectors
    }
}
