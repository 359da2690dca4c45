//! Where control goes from an instruction outside sites.

ghost use Rattle.std.specs.Prelude.{◌≡◌, ◌⊎◌, ◌+◌, ◌-◌, ◌%◌, ◌^◌, ◌≤◌, ◌<◌, ℕ, List, true, false, ◌↔◌, length};
ghost use Rattle.std.specs.List.{Contains};
ghost use Rattle.ia32_types.specs.declared.addresses.TheConstants.{TEXT_ADDRESS};
ghost use Rattle.ia32_types.specs.Branches.{is_direct_branch};
ghost use Rattle.ia32_types.specs.declared.flags.Regs.{Regs};
ghost use Rattle.ia32_exec.specs.declared.outcome.Outcome.TheVariants.{Done};
ghost use Rattle.ia32_exec.specs.declared.outcome.Stores.{Stores};
ghost use Rattle.ia32_exec.specs.Effect.{effect};
ghost use Rattle.sites.specs.declared.site.Site.{Site};
ghost use Rattle.image_check.specs.declared.place.AtOffset.TheVariants.{NotAStart, Outside, Inside};
ghost use Rattle.image_check.specs.Image.{Image};
ghost use Rattle.image_check.specs.Accepts.{IsAccepted};
ghost use Rattle.image_check.specs.Sweep.{Swept};
ghost use Rattle.image_check.specs.Pieces.{target_of};
ghost use Rattle.image_check.specs.Places.{is_start, is_start_at, is_site_at, linear};
ghost use Rattle.image_check.specs.Standing.{swept_of, is_in_site, place_of, place_at, StandsOutside};
ghost use Rattle.image_laws.specs.WaysIn.{IsWayIn, IsLast};

use ia32_exec::eip_goes_on;

/// After an instruction of the text the next one begins, or it is the last one, which jumps to itself.
/// Outside sites the next one is no inner part of a site, and neither is where a direct branch leads, or where the
/// entry is.
pub fn ways_on()
    ensures next { (image : Image) → IsAccepted image → (s : Swept) → Contains (swept_of image.text) s
        → (is_start image.text (s.at + s.len) ≡ true) ⊎ IsLast image s }
    ensures next_outside { (image : Image) → IsAccepted image → (s : Swept) → StandsOutside image s
        → IsWayIn image (s.at + s.len) ⊎ IsLast image s }
    ensures branch { (image : Image) → IsAccepted image → (s : Swept) → Contains (swept_of image.text) s
        → is_direct_branch s.insn.op ≡ true → IsWayIn image (target_of s.at s.len s.insn) }
    ensures here { (image : Image) → IsAccepted image → (s : Swept) → StandsOutside image s → IsWayIn image s.at }
    ensures site { (image : Image) → IsAccepted image → (site : Site) → Contains image.sites site → IsWayIn image site.at }
    ensures entry { (image : Image) → IsAccepted image → (TEXT_ADDRESS ≤ image.entry) × IsWayIn image (image.entry - TEXT_ADDRESS) }
    ensures place { (image : Image) (at : ℕ) → IsWayIn image at → (place_of image at ≡ Outside)
        ⊎ ((site : Site) × (place_of image at ≡ Inside site) × (site.at ≡ at)) }
{}

/// Where control goes from an instruction, as linear addresses, by the sums that an instruction makes.
pub fn addresses()
    ensures next { (image : Image) → IsAccepted image → (s : Swept) → Contains (swept_of image.text) s
        → (linear s.at + s.len) % 2 ^ 32 ≡ linear (s.at + s.len) }
    ensures branch { (image : Image) → IsAccepted image → (s : Swept) → Contains (swept_of image.text) s
        → is_direct_branch s.insn.op ≡ true → (linear (s.at + s.len) + s.insn.imm) % 2 ^ 32
        ≡ linear (target_of s.at s.len s.insn) }
    ensures place { (image : Image) (at : ℕ) → place_at image (linear at) ≡ place_of image at }
    ensures not_a_start { (image : Image) (eip : ℕ) → (place_at image eip ≡ NotAStart) ↔ (is_start_at image.text eip ≡ false) }
    ensures in_site { (sites : List Site) (at : ℕ) → is_site_at sites (linear at) ≡ is_in_site sites at }
    ensures start { (image : Image) → IsAccepted image → (at : ℕ) → is_start image.text at ≡ true → at < length image.text }
{}

/// What an instruction outside sites leaves in EIP is where control may come in.
pub fn goes_on()
    ensures { (image : Image) → IsAccepted image → (s : Swept) → StandsOutside image s → (r : Regs)
        → r.eip ≡ linear s.at → (b : ℕ → ℕ) (after : Regs) (stores : Stores)
        → effect s.insn s.len r b ≡ Done after stores → (at : ℕ) × (after.eip ≡ linear at) × IsWayIn image at }
{
    eip_goes_on();
}
