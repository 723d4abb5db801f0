// The choice at a position, site by site.
ghost use Rattle.std.specs.Prelude.{◌≡◌, ℕ, ◌≤◌, ◌<◌, get_or};
ghost use Rattle.catalogue.specs.Library.{most_sites};
ghost use Rattle.catalogue.specs.Products.{choice_at};
ghost use Rattle.catalogue.specs.Said.{no_site};
ghost use Rattle.catalogue.specs.Table.{sites_in};
ghost use Rattle.library.specs.Chosen.{choice_in};

use catalogue::{SITES, Site};

// The choice at a position: for each of the first n sites the index of a candidate, and 0 for the others.
pub(crate) fn choose(sites: [Site; SITES], n: usize, position: usize) -> [usize; SITES]
    requires { (n ≤ most_sites) × ((k : ℕ) → k < n → 1 ≤ (get_or sites k no_site).many) }
    ensures { choice_in result n ≡ choice_at (sites_in sites n) position }
{
    let mut digits = [0usize; SITES];
    let mut k = n;
    let mut p = position;
    while 0 < k {
        k -= 1;
        let s = sites[k];
        let many = s.many as usize;
        digits[k] = p % many;
        p = p / many;
    }
    digits
}
