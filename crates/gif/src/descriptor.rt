// The descriptor that is met at a path's next data.
ghost use Rattle.std.specs.Prelude.{◌≡◌};
ghost use Rattle.gif.specs.Range.{TagFits, PlaceFits};
ghost use Rattle.gif.specs.Met.{reglist_met, data_met, place_met, met_descriptor};

use super::range::path_in_range;
use super::{HeldTag, Path, TagFormat};

fn reglist_met(tag: HeldTag) -> u64
    requires { TagFits tag }
    ensures { result ≡ reglist_met tag }
{
    let item = 2 * tag.taken();
    let first = tag.descriptor_at(item);
    if first == 11 {
        first
    } else {
        tag.descriptor_at(item + 1)
    }
}

fn data_met(tag: HeldTag) -> u64
    requires { TagFits tag }
    ensures { result ≡ data_met tag.format tag }
{
    match tag.format {
        TagFormat::Packed => tag.descriptor_at(tag.taken()),
        TagFormat::Reglist => reglist_met(tag),
        TagFormat::Image => 0,
    }
}

fn place_met(place: Option<HeldTag>) -> u64
    requires { PlaceFits place }
    ensures { result ≡ place_met place }
{
    match place {
        None => 0,
        Some(tag) => data_met(tag),
    }
}

// The held descriptor, 0 where the path is out of its range.
pub fn met_descriptor(path: Path) -> u64
    ensures { result ≡ met_descriptor path }
{
    if path_in_range(path) {
        place_met(path.place)
    } else {
        0
    }
}
