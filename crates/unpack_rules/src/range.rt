// The range of CL and WL.
ghost use Rattle.std.specs.Prelude.{◌≡◌};
ghost use Rattle.unpack_rules.specs.Range.{cycle_refused, cycle_in_range};

// Whether an UNPACK is refused for CL and WL.
pub fn cycle_refused(cl: u32, wl: u32) -> bool
    ensures { result ≡ cycle_refused cl wl }
{
    wl == 0
}

// Whether CL and WL are such that an UNPACK is accepted.
#[tactic(auto, unfolding(crate::specs::Range::cycle_in_range))]
pub fn cycle_in_range(cl: u32, wl: u32) -> bool
    ensures { result ≡ cycle_in_range cl wl }
{
    !cycle_refused(cl, wl) && cl <= 255 && wl <= 255
}
