// The fields of a vector of format V4-5.
ghost use Rattle.std.specs.Prelude.{◌≡◌};
ghost use Rattle.unpack_rules.specs.Vector.{five_fields};

pub fn five_fields(h: u32) -> [u32; 4]
    ensures { result ≡ five_fields h }
{
    [
        h % 32 * 8,
        h / 32 % 32 * 8,
        h / 1024 % 32 * 8,
        h / 32768 % 2 * 128,
    ]
}
