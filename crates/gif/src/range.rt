// The range of a path.
ghost use Rattle.std.specs.Prelude.{◌≡◌};
ghost use Rattle.gif.specs.Range.{path_in_range};

use super::Path;

// Whether a path is in its range; any Q is.
pub fn path_in_range(path: Path) -> bool
    ensures { result ≡ path_in_range path }
{
    match path.place {
        None => true,
        Some(tag) => tag.in_range(),
    }
}
