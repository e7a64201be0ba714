// Words of a block.
ghost use Rattle.std.specs.Prelude.{◌≡◌, [], ◌∷◌, ◌/◌, ◌%◌, ◌^◌, eqb, leb};
ghost use Rattle.std.specs.Bool.{then_some};
ghost use Rattle.state_block.specs.Words.{long_of};

// The bit that a word says; none above 1.
pub(crate) fn bit_in(word: u32) -> Option<bool>
    ensures { result ≡ then_some (leb word 1) (eqb word 1) }
{
    match word {
        0 => Some(false),
        1 => Some(true),
        _ => None,
    }
}

// The 64 bits of two words, the low one first.
pub(crate) fn joined(low: u32, high: u32) -> u64
    ensures { result ≡ long_of low high }
{
    u64::from(low) + u64::from(high) * 0x1_0000_0000
}

// And the two words.
pub(crate) fn halves(long: u64) -> [u32; 2]
    ensures { result ≡ long % 2 ^ 32 ∷ long / 2 ^ 32 ∷ [] }
{
    [(long % 0x1_0000_0000) as u32, (long / 0x1_0000_0000) as u32]
}
