// Formats and the size of their vectors.
ghost use Rattle.std.specs.Prelude.{◌≡◌};
ghost use Rattle.unpack_rules.specs.Payload.{element_bits, elements, is_five, vector_bits};
ghost use Rattle.unpack_rules.specs.Step.{count_of};

use super::Format;

impl Format {
    pub fn element_bits(self) -> u32
        ensures { result ≡ element_bits self }
    {
        match self {
            Format::S32 | Format::V2x32 | Format::V3x32 | Format::V4x32 => 32,
            Format::S16 | Format::V2x16 | Format::V3x16 | Format::V4x16 | Format::V4x5 => 16,
            Format::S8 | Format::V2x8 | Format::V3x8 | Format::V4x8 => 8,
        }
    }

    pub fn elements(self) -> u32
        ensures { result ≡ elements self }
    {
        match self {
            Format::S32 | Format::S16 | Format::S8 | Format::V4x5 => 1,
            Format::V2x32 | Format::V2x16 | Format::V2x8 => 2,
            Format::V3x32 | Format::V3x16 | Format::V3x8 => 3,
            Format::V4x32 | Format::V4x16 | Format::V4x8 => 4,
        }
    }

    pub fn is_five(self) -> bool
        ensures { result ≡ is_five self }
    {
        matches!(self, Format::V4x5)
    }

    pub fn vector_bits(self) -> u32
        ensures { result ≡ vector_bits self }
    {
        self.elements() * self.element_bits()
    }
}

// "NUM 0 means 256".
pub fn count_of(num: u32) -> u32
    ensures { result ≡ count_of num }
{
    match num % 256 {
        0 => 256,
        n => n,
    }
}
