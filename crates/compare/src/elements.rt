// Two lists compared element by element.
ghost use Rattle.std.specs.Prelude.{◌≡◌, ◌+◌, ◌*◌, ◌<◌, ◌≤◌};
ghost use Rattle.compare.specs.Elements.{found_from};
ghost use Rattle.compare.specs.Inner.{Inside, found_after, found_by, unequal};

use super::Found;

impl Found {
    // What is found once element i is looked at too.
    fn after(self, i: u64, differs: bool) -> Found
        requires { (self.count ≤ i) × (i < 18446744073709551615) }
        ensures { result ≡ found_after self i differs }
    {
        if differs {
            Found {
                count: self.count + 1,
                ..self
            }
        } else if self.first < i {
            self
        } else {
            Found {
                first: i + 1,
                ..self
            }
        }
    }
}

// What is found in n elements, each of so many numbers.
pub(crate) fn found_in<T: PartialEq>(size: usize, a: &[T], b: &[T], n: usize) -> Found
    requires { Inside (size * n) a.now b.now }
    ensures { result ≡ found_by (unequal T.eq size a.now b.now) n }
{
    let mut found = Found { first: 0, count: 0 };
    for i in 0..n {
        let from = size * i;
        let to = from + size;
        found = found.after(i as u64, a[from..to] != b[from..to]);
    }
    found
}

// What is found in n quadwords of data memories from one on.
pub(crate) fn found_from(first: usize, n: usize, a: &[u32], b: &[u32]) -> Found
    requires { Inside (4 * (first + n)) a.now b.now }
    ensures { result ≡ found_from 4 first a.now b.now n }
{
    let at = 4 * first;
    let found = found_in(4, &a[at..], &b[at..], n);
    Found {
        first: first as u64 + found.first,
        ..found
    }
}
