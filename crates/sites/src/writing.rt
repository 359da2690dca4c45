//! Writing a list of sites.

ghost use Rattle.std.specs.Prelude.{◌≡◌, ◌≤◌, ◌++◌, length, OnOk, IfOk};
ghost use Rattle.sites.specs.Spelling.{site, placed, spelling};
ghost use Rattle.sites.specs.Form.{IsWritable, IsInForm};
ghost use Rattle.sites.specs.Formats.{sites_in};

use crate::gapped::write_gapped;
use crate::kind::number;
use crate::limits::SITE_LIMIT;
use crate::site::{Site, Sites};
use std::alloc::{AllocError, Global};

fn put_site(out: &mut Vec<u8>, s: &Site) -> Result<(), AllocError>
    ensures { OnOk result (out.new.items ≡ out.old.items ++ site s.now) }
{
    out.extend_from_slice(&s.at.to_le_bytes())?;
    out.extend_from_slice(&[number(s.kind), s.len, s.total, 0])?;
    Ok(())
}

fn write_placed(alloc: Global, sites: &[Site]) -> Result<Vec<u8>, AllocError>
    requires { length sites.now ≤ SITE_LIMIT }
    ensures { IfOk result (λ v. v.items ≡ placed sites.now) }
{
    let mut out = Vec::new(alloc);
    out.extend_from_slice(b"PVS1")?;
    out.extend_from_slice(&(sites.len() as u32).to_le_bytes())?;
    for s in sites {
        put_site(&mut out, s)?;
    }
    Ok(out)
}

#[tactic(auto, unfolding(crate::specs::Spelling::spelling))]
fn written(alloc: Global, sites: &Sites) -> Result<Vec<u8>, AllocError>
    requires count { length sites.now.list ≤ SITE_LIMIT }
    requires sites { IsWritable sites.now }
    ensures { IfOk result (λ v. v.items ≡ spelling sites.now) }
{
    if sites.format == 2 {
        return write_gapped(alloc, &sites.list);
    }
    write_placed(alloc, &sites.list)
}

/// The one spelling of the sites in their format.
pub fn write_sites(alloc: Global, sites: &Sites) -> Result<Vec<u8>, AllocError>
    requires count { length sites.now.list ≤ SITE_LIMIT }
    requires sites { IsWritable sites.now }
    ensures spelling { IfOk result (λ v. v.items ≡ spelling sites.now) }
    // It is read as the same sites.
    ensures read { IfOk result (λ v. IsInForm sites.now → sites_in v.items ≡ Ok sites.now) }
{
    let out = written(alloc, sites)?;
    Ok(out)
}
