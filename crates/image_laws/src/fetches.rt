//! What is fetched from the text and from the patched text.

ghost use Rattle.std.specs.Prelude.{◌≡◌, ◌+◌, ◌≤◌, ◌<◌, ◌++◌, ℕ, List, length};
ghost use Rattle.std.specs.List.{Contains};
ghost use Rattle.guest_ram.specs.Bytes.{part};
ghost use Rattle.ia32_decode.specs.Decoding.{decoded};
ghost use Rattle.ia32_decode.specs.declared.answer.Decoded.TheVariants as answer;
ghost use Rattle.sites.specs.declared.site.Site.{Site};
ghost use Rattle.sites.specs.Patched.{patched};
ghost use Rattle.image_check.specs.Image.{Image};
ghost use Rattle.image_check.specs.Accepts.{IsAccepted};
ghost use Rattle.image_check.specs.Sweep.{Swept};
ghost use Rattle.image_check.specs.Standing.{swept_of, StandsOutside};
ghost use Rattle.image_laws.specs.Patches.{jump_out};

/// Where an instruction of the text stands, any bytes that begin with its own are decoded to it,
/// whatever follows them, and fewer are cut. Outside sites the same holds of the patched text.
pub fn fetching()
    ensures same_bytes { (image : Image) → IsAccepted image → (s : Swept) → StandsOutside image s → (n : ℕ)
        → n ≤ s.len → part (patched image.text 0 image.sites) s.at n ≡ part image.text s.at n }
    ensures whole { (image : Image) → IsAccepted image → (s : Swept) → Contains (swept_of image.text) s → (n : ℕ)
        → s.len ≤ n → (more : List ℕ) → decoded (part image.text s.at n ++ more) ≡ answer.Insn s.insn s.len }
    ensures whole_patched { (image : Image) → IsAccepted image → (s : Swept) → StandsOutside image s → (n : ℕ)
        → s.len ≤ n → (more : List ℕ) → decoded (part (patched image.text 0 image.sites) s.at n ++ more)
        ≡ answer.Insn s.insn s.len }
    ensures cut { (image : Image) → IsAccepted image → (s : Swept) → Contains (swept_of image.text) s → (n : ℕ)
        → n < s.len → decoded (part image.text s.at n) ≡ answer.Short }
    ensures cut_patched { (image : Image) → IsAccepted image → (s : Swept) → StandsOutside image s → (n : ℕ)
        → n < s.len → decoded (part (patched image.text 0 image.sites) s.at n) ≡ answer.Short }
{}

/// What is fetched of an instruction from a memory in which the text stands.
pub fn fetching_from_text()
    ensures whole { (image : Image) → IsAccepted image → (m : List ℕ) (at : ℕ)
        → part m at (length image.text) ≡ image.text → (s : Swept) → Contains (swept_of image.text) s → (n : ℕ)
        → s.len ≤ n → (more : List ℕ) → decoded (part m (at + s.at) n ++ more) ≡ answer.Insn s.insn s.len }
    ensures cut { (image : Image) → IsAccepted image → (m : List ℕ) (at : ℕ)
        → part m at (length image.text) ≡ image.text → (s : Swept) → Contains (swept_of image.text) s → (n : ℕ)
        → n < s.len → decoded (part m (at + s.at) n) ≡ answer.Short }
{}

/// What is fetched of an instruction from a memory in which the patched text stands, outside sites and at a site.
pub fn fetching_from_patched()
    ensures whole { (image : Image) → IsAccepted image → (m : List ℕ) (at : ℕ)
        → part m at (length image.text) ≡ patched image.text 0 image.sites → (s : Swept) → StandsOutside image s
        → (n : ℕ) → s.len ≤ n → (more : List ℕ)
        → decoded (part m (at + s.at) n ++ more) ≡ answer.Insn s.insn s.len }
    ensures cut { (image : Image) → IsAccepted image → (m : List ℕ) (at : ℕ)
        → part m at (length image.text) ≡ patched image.text 0 image.sites → (s : Swept) → StandsOutside image s
        → (n : ℕ) → n < s.len → decoded (part m (at + s.at) n) ≡ answer.Short }
    ensures jump { (image : Image) → IsAccepted image → (m : List ℕ) (at : ℕ)
        → part m at (length image.text) ≡ patched image.text 0 image.sites → (site : Site)
        → Contains image.sites site → (n : ℕ) → 5 ≤ n → (more : List ℕ)
        → decoded (part m (at + site.at) n ++ more) ≡ answer.Insn jump_out 5 }
    ensures jump_cut { (image : Image) → IsAccepted image → (m : List ℕ) (at : ℕ)
        → part m at (length image.text) ≡ patched image.text 0 image.sites → (site : Site)
        → Contains image.sites site → (n : ℕ) → n < 5 → decoded (part m (at + site.at) n) ≡ answer.Short }
{}
