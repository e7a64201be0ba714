// Numbers in main memory, little-endian.
#![tactic(auto, unfolding(crate::specs::Memory::word_at, crate::specs::Memory::long_at, crate::specs::Memory::inside))]

ghost use Rattle.std.specs.Prelude.{◌≡◌, ◌+◌, ◌^◌, ◌<◌, ◌≤◌, length, slice_index};
ghost use Rattle.fields.specs.Memory.{word_at, long_at, inside};

// The bytes that main memory has at most.
pub const MAIN_MOST: usize = 1048576;

// The byte at a place, 0 past the end.
fn byte_at(main: &[u8], at: usize) -> u8
    ensures { result ≡ slice_index main.now at }
{
    main.get(at).copied().unwrap_or(0)
}

// The word at a place that lies inside.
fn word_inside(main: &[u8], at: usize) -> u32
    requires { at + 4 ≤ length main.now }
    ensures { result ≡ word_at main.now at }
{
    u32::from_le_bytes([main[at], main[at + 1], main[at + 2], main[at + 3]])
}

fn word_from(main: &[u8], at: usize) -> u32
    requires { at < 2 ^ 33 }
    ensures { result ≡ word_at main.now at }
{
    if at + 4 <= main.len() {
        return word_inside(main, at);
    }
    u32::from_le_bytes([
        byte_at(main, at),
        byte_at(main, at + 1),
        byte_at(main, at + 2),
        byte_at(main, at + 3),
    ])
}

// The word at an address; bytes past the end count as 0.
pub fn word_at(main: &[u8], a: u32) -> u32
    ensures { result ≡ word_at main.now a }
{
    word_from(main, a as usize)
}

// The 64 bits at an address.
pub fn long_at(main: &[u8], a: u32) -> u64
    ensures { result ≡ long_at main.now a }
{
    let at = a as usize;
    u64::from(word_from(main, at)) + u64::from(word_from(main, at + 4)) * 0x1_0000_0000
}

// So many bytes from an address on lie inside.
pub fn lies_inside(main: &[u8], a: u32, n: usize) -> bool
    ensures { result ≡ inside main.now a n }
{
    let len = main.len();
    len <= MAIN_MOST && n <= len && a as usize + n <= len
}
