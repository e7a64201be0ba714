// The mask register.
ghost use Rattle.std.specs.Prelude.{◌≡◌};
ghost use Rattle.unpack_rules.specs.Mask.{row_of_cycle, mask_of, unfolded};

use super::cycle::place_in_cycle;

// The mask as four rows of four codes.
pub fn unfold_mask(mask: u32) -> [[u32; 4]; 4]
    ensures { result ≡ unfolded mask }
{
    [
        [mask % 4, mask / 4 % 4, mask / 16 % 4, mask / 64 % 4],
        [
            mask / 256 % 4,
            mask / 1024 % 4,
            mask / 4096 % 4,
            mask / 16384 % 4,
        ],
        [
            mask / 65536 % 4,
            mask / 262144 % 4,
            mask / 1048576 % 4,
            mask / 4194304 % 4,
        ],
        [
            mask / 0x0100_0000 % 4,
            mask / 0x0400_0000 % 4,
            mask / 0x1000_0000 % 4,
            mask / 0x4000_0000 % 4,
        ],
    ]
}

pub fn mask_of(masked: bool, mask: u32) -> u32
    ensures { result ≡ mask_of masked mask }
{
    if masked { mask } else { 0 }
}

// The mask's row for a write.
pub fn row_of_cycle(wl: u32, i: u32) -> u32
    ensures { result ≡ row_of_cycle wl i }
{
    place_in_cycle(wl, i).min(3)
}
