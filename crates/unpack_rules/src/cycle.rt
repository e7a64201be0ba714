// A write's place in the cycle of WL writes, and in a memory. A cycle of one is told without a division.
ghost use Rattle.std.specs.Prelude.{◌≡◌, ◌/◌, ◌%◌};
ghost use Rattle.unpack_rules.specs.Position.{fills, vectors_before};

// The cycles before write i.
pub fn cycles_before(wl: u32, i: u32) -> u32
    ensures { result ≡ i / wl }
{
    match wl {
        0 => 0,
        1 => i,
        _ => i / wl,
    }
}

// The writes before write i in its cycle.
pub fn place_in_cycle(wl: u32, i: u32) -> u32
    ensures { result ≡ i % wl }
{
    match wl {
        0 => i,
        1 => 0,
        _ => i % wl,
    }
}

// The vectors that the first n writes take.
pub fn vectors_before(cl: u32, wl: u32, n: u32) -> u32
    ensures { result ≡ vectors_before cl wl n }
{
    if cl < wl {
        cl * (n / wl) + (n % wl).min(cl)
    } else {
        n
    }
}

// Whether write i fills.
pub fn is_fill(cl: u32, wl: u32, i: u32) -> bool
    ensures { result ≡ fills cl wl i }
{
    cl < wl && cl <= i % wl
}

// A place modulo the memory's size.
pub fn wrapped(size: u32, at: u32) -> u32
    ensures { result ≡ at % size }
{
    if at < size || size == 0 {
        at
    } else {
        at % size
    }
}
