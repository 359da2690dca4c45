//! How sites and instructions lie in the text of an accepted image.

ghost use Rattle.std.specs.Prelude.{◌≡◌, ◌↔◌, ◌⊎◌, ◌+◌, ◌≤◌, ◌<◌, ℕ, List, length, max, true, Some, None};
ghost use Rattle.std.specs.List.{Contains};
ghost use Rattle.guest_ram.specs.Among.{is_among};
ghost use Rattle.ia32_types.specs.Site.{sensitive_kind};
ghost use Rattle.ia32_types.specs.declared.site.SiteKind.TheVariants.{StiHlt};
ghost use Rattle.ia32_rows.specs.Spells.{AreBytes};
ghost use Rattle.sites.specs.declared.site.Site.{Site};
ghost use Rattle.image_check.specs.declared.place.AtOffset.TheVariants.{Outside, Inside};
ghost use Rattle.image_check.specs.Image.{Image};
ghost use Rattle.image_check.specs.Accepts.{IsAccepted};
ghost use Rattle.image_check.specs.Sweep.{Swept, starts_of};
ghost use Rattle.image_check.specs.SweptTexts.{Sweep};
ghost use Rattle.image_check.specs.Places.{is_start};
ghost use Rattle.image_check.specs.Standing.{swept_of, site_at, place_of, StandsOutside, StandsInside};
ghost use Rattle.image_check.specs.Layout.{AreApart, PartOf, BeginsSite};

/// The tests of an offset say what the sweep and the list of sites say.
pub fn places()
    ensures sweep { (image : Image) → IsAccepted image → Sweep image.text (swept_of image.text) }
    ensures bytes { (image : Image) → IsAccepted image → AreBytes image.text }
    ensures start { (text : List ℕ) (at : ℕ) → (is_start text at ≡ true) ↔ Contains (starts_of text) at }
    ensures start_test { (text : List ℕ) (at : ℕ) → is_start text at ≡ is_among at (starts_of text) }
    ensures instruction { (text : List ℕ) (at : ℕ) → is_start text at ≡ true → (s : Swept) × Contains (swept_of text) s × (s.at ≡ at) }
    ensures instruction_starts { (text : List ℕ) (s : Swept) → Contains (swept_of text) s → is_start text s.at ≡ true }
    ensures one_instruction { (image : Image) → IsAccepted image → (s t : Swept) → Contains (swept_of image.text) s
        → Contains (swept_of image.text) t → s.at ≡ t.at → s ≡ t }
    ensures outside { (image : Image) (at : ℕ) → place_of image at ≡ Outside → (s : Swept) × StandsOutside image s × (s.at ≡ at) }
    ensures inside { (image : Image) (at : ℕ) (site : Site) → place_of image at ≡ Inside site → (s : Swept)
        × StandsInside image site s × (s.at ≡ at) }
    ensures site { (image : Image) → IsAccepted image → (at : ℕ) (site : Site)
        → (site_at image.sites at ≡ Some site)
        ↔ (Contains image.sites site × (site.at ≤ at) × (at < site.at + site.total)) }
    ensures no_site { (image : Image) → IsAccepted image → (at : ℕ) → (site_at image.sites at ≡ None)
        ↔ ((site : Site) → Contains image.sites site → (at < site.at) ⊎ (site.at + site.total ≤ at)) }
{}

/// An instruction outside sites is not sensitive, and its bytes lie in the text, apart from all sites.
pub fn outside_sites()
    ensures insensitive { (image : Image) → IsAccepted image → (s : Swept) → StandsOutside image s → sensitive_kind s.insn ≡ None }
    ensures apart { (image : Image) → IsAccepted image → (s : Swept) → StandsOutside image s → (site : Site)
        → Contains image.sites site → (s.at + s.len ≤ site.at) ⊎ (site.at + site.total ≤ s.at) }
    ensures bytes { (image : Image) → IsAccepted image → (s : Swept) → StandsOutside image s → (k : ℕ) → s.at ≤ k
        → k < s.at + s.len → site_at image.sites k ≡ None }
    ensures room { (image : Image) → IsAccepted image → (s : Swept) → Contains (swept_of image.text) s → (1 ≤ s.len)
        × (s.len ≤ 11) × (s.at + s.len ≤ length image.text) }
{}

/// Sites lie in order and apart in the text. Each begins where an instruction does, and is made of its
/// sensitive instruction, or of STI and HLT, with NOPs after it.
pub fn inside_sites()
    ensures apart { (image : Image) → IsAccepted image → AreApart 0 image.sites (length image.text) }
    ensures total { (image : Image) → IsAccepted image → (site : Site) → Contains image.sites site → site.total ≡ max 5 site.len }
    ensures first { (image : Image) → IsAccepted image → (site : Site) → Contains image.sites site → (s : Swept)
        × StandsInside image site s × BeginsSite site s }
    ensures parts { (image : Image) → IsAccepted image → (site : Site) (s : Swept) → StandsInside image site s → PartOf site s }
    ensures hlt_start { (image : Image) → IsAccepted image → (site : Site) → Contains image.sites site
        → site.kind ≡ StiHlt → is_start image.text (site.at + 1) ≡ true }
    ensures nop_starts { (image : Image) → IsAccepted image → (site : Site) → Contains image.sites site → (k : ℕ)
        → site.at + site.len ≤ k → k < site.at + site.total → is_start image.text k ≡ true }
    ensures within { (image : Image) → IsAccepted image → (site : Site) (s : Swept) → StandsInside image site s
        → (site.at ≤ s.at) × (s.at + s.len ≤ site.at + site.total) }
{}
