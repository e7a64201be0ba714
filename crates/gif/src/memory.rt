// Quadwords of main memory, where they lie inside.
ghost use Rattle.std.specs.Prelude.{◌≡◌, ◌+◌, ◌*◌, ◌≤◌, length};
ghost use Rattle.fields.specs.Memory.{long_at, quadword_at};
ghost use Rattle.gif.specs.Inner.{QuadwordsInside, quadword_of};

use super::{GifPath, Quadword};

// The 64 bits at a place that lies inside.
fn long_inside(main: &[u8], at: usize) -> u64
    requires { at + 8 ≤ length main.now }
    ensures { result ≡ long_at main.now at }
{
    let low = u32::from_le_bytes([main[at], main[at + 1], main[at + 2], main[at + 3]]);
    let high = u32::from_le_bytes([main[at + 4], main[at + 5], main[at + 6], main[at + 7]]);
    u64::from(low) + u64::from(high) * 0x1_0000_0000
}

// Quadwords from an address on, and the path that they come by.
#[derive(Clone, Copy)]
pub(crate) struct Source<'a> {
    pub(crate) which: GifPath,
    pub(crate) main: &'a [u8],
    pub(crate) a: u32,
}

impl Source<'_> {
    // The quadword with k before it.
    pub(crate) fn quadword(self, k: u32) -> Quadword
        requires { QuadwordsInside self.main.now self.a (k + 1) }
        ensures { quadword_of result ≡ quadword_at self.entry.main.now (self.entry.a + 16 * k) }
    {
        let at = self.a as usize + 16 * k as usize;
        Quadword {
            low: long_inside(self.main, at),
            high: long_inside(self.main, at + 8),
        }
    }
}
