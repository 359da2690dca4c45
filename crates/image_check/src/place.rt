//! What stands at an offset of a text.

ghost use Rattle.std.specs.Prelude.{◌≡◌, ℕ};
ghost use Rattle.image_check.specs.Layout.{AreApart};
ghost use Rattle.image_check.specs.Standing.{site_at};

use sites::{Site, Sites};

/// What stands at an offset of a text: no instruction begins there; one begins there that is in no
/// site; or one that is in a site, the site's first included.
#[derive(Clone, Copy, PartialEq, Eq)]
pub enum AtOffset {
    NotAStart,
    Outside,
    Inside(Site),
}

/// The site in which an offset lies, of sites in order. The half that cannot have it is left out at
/// each turn.
pub fn site_at(sites: &Sites, at: u32) -> Option<Site>
    requires { (to : ℕ) × AreApart 0 sites.now.list to }
    ensures { result ≡ site_at sites.now.list at }
{
    let mut low = 0;
    let mut high = sites.list.len();
    while low < high {
        let middle = low + (high - low) / 2;
        let site = sites.list[middle];
        if at < site.at {
            high = middle;
        } else if at - site.at < u32::from(site.total) {
            return Some(site);
        } else {
            low = middle + 1;
        }
    }
    None
}
