// The formats and their numbers.
ghost use Rattle.std.specs.Prelude.{◌≡◌};
ghost use Rattle.unpack_rules.specs.Formats.{format_number, format_named};

use super::Format;

// The number of a format: bits 0 to 3 of CMD.
pub fn format_number(f: Format) -> u32
    ensures { result ≡ format_number f }
{
    f as u32
}

// The format that has a number. No TryFrom: its error would say no more than None, and each caller refuses in its own way.
pub fn format_named(n: u32) -> Option<Format>
    ensures { result ≡ format_named n }
{
    match n {
        0x0 => Some(Format::S32),
        0x1 => Some(Format::S16),
        0x2 => Some(Format::S8),
        0x4 => Some(Format::V2x32),
        0x5 => Some(Format::V2x16),
        0x6 => Some(Format::V2x8),
        0x8 => Some(Format::V3x32),
        0x9 => Some(Format::V3x16),
        0xa => Some(Format::V3x8),
        0xc => Some(Format::V4x32),
        0xd => Some(Format::V4x16),
        0xe => Some(Format::V4x8),
        0xf => Some(Format::V4x5),
        _ => None,
    }
}
