// Whole memories, put into the results.
ghost use Rattle.std.specs.Prelude.{◌≡◌, ◌+◌, ◌*◌, ◌^◌, ◌≤◌};
ghost use Rattle.wire.specs.Words.{sent_all};
ghost use Rattle.cases.specs.Memories.{byte_word, bytes_words};

use super::number::number_in;
use wire::{Output, put};

// Word k of a byte memory; what lies beyond its end is zero.
pub(crate) fn byte_word(memory: &[u8], k: usize) -> u32
    requires { 4 * k + 4 ≤ 2 ^ 64 }
    ensures { result ≡ byte_word memory.now k }
{
    u32::from_le_bytes([
        number_in(memory, 4 * k),
        number_in(memory, 4 * k + 1),
        number_in(memory, 4 * k + 2),
        number_in(memory, 4 * k + 3),
    ])
}

// A byte memory as words, the last one filled up with zero bytes.
pub fn emit_bytes(out: &mut Output, memory: &[u8])
    ensures { out.new ≡ sent_all out.old.out out.old.at (bytes_words memory.now) }
{
    let mut at = out.at;
    for k in 0..memory.len().div_ceil(4) {
        at = put(&mut out.out, at, byte_word(memory, k));
    }
    out.at = at;
}
