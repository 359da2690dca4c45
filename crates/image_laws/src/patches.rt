//! The patched text of an accepted image.

ghost use Rattle.std.specs.Prelude.{◌≡◌, ◌⊎◌, ◌+◌, ◌%◌, ◌^◌, ◌≤◌, ◌<◌, ◌++◌, ℕ, List, length, None};
ghost use Rattle.std.specs.List.{Contains};
ghost use Rattle.guest_ram.specs.Bytes.{byte, part, with_part};
ghost use Rattle.ia32_decode.specs.Decoding.{decoded};
ghost use Rattle.ia32_decode.specs.declared.answer.Decoded.TheVariants as answer;
ghost use Rattle.ia32_types.specs.declared.addresses.TheConstants.{WINDOW_ADDRESS, WINDOW_BELOW, WINDOW_END};
ghost use Rattle.ia32_types.specs.declared.flags.Regs.{Regs};
ghost use Rattle.ia32_exec.specs.declared.outcome.Outcome.TheVariants.{Done};
ghost use Rattle.ia32_exec.specs.declared.outcome.Stores.TheVariants.{Nothing};
ghost use Rattle.ia32_exec.specs.Effect.{effect};
ghost use Rattle.sites.specs.declared.site.Site.{Site};
ghost use Rattle.sites.specs.Patched.{patch_bytes, patched};
ghost use Rattle.image_check.specs.Image.{Image};
ghost use Rattle.image_check.specs.Accepts.{IsAccepted};
ghost use Rattle.image_check.specs.Places.{linear};
ghost use Rattle.image_check.specs.Standing.{site_at};
ghost use Rattle.image_laws.specs.Patches.{jump_out, window_at};

/// Outside sites the patched text is the text, and a site is E9 with F4 after it. Patching a memory in
/// which the text stands makes the patched text of it, and changes no other byte; and the text laid over
/// it again is the memory as it was.
pub fn patching()
    ensures length { (image : Image) → IsAccepted image → length (patched image.text 0 image.sites) ≡ length image.text }
    ensures outside { (image : Image) → IsAccepted image → (k : ℕ) → site_at image.sites k ≡ None
        → byte (patched image.text 0 image.sites) k ≡ byte image.text k }
    ensures site { (image : Image) → IsAccepted image → (site : Site) → Contains image.sites site
        → part (patched image.text 0 image.sites) site.at site.total ≡ patch_bytes site.total }
    ensures memory { (image : Image) → IsAccepted image → (m : List ℕ) (at : ℕ) → at + length image.text ≤ length m
        → part m at (length image.text) ≡ image.text
        → patched m at image.sites ≡ with_part m at (patched image.text 0 image.sites) }
    ensures original { (image : Image) → IsAccepted image → (m : List ℕ) (at : ℕ)
        → at + length image.text ≤ length m → part m at (length image.text) ≡ image.text
        → with_part (patched m at image.sites) at image.text ≡ m }
    ensures memory_length { (image : Image) → IsAccepted image → (m : List ℕ) (at : ℕ)
        → at + length image.text ≤ length m → length (patched m at image.sites) ≡ length m }
    ensures text_in_memory { (image : Image) → IsAccepted image → (m : List ℕ) (at : ℕ)
        → at + length image.text ≤ length m → part m at (length image.text) ≡ image.text
        → part (patched m at image.sites) at (length image.text) ≡ patched image.text 0 image.sites }
    ensures other_bytes { (image : Image) → IsAccepted image → (m : List ℕ) (at : ℕ)
        → at + length image.text ≤ length m → (k : ℕ) → (k < at) ⊎ (at + length image.text ≤ k)
        → byte (patched m at image.sites) k ≡ byte m k }
{}

/// At a site the patched text has a jump to the wedge window, whose address there names the site.
pub fn jumps_out()
    ensures jump { (image : Image) → IsAccepted image → (site : Site) → Contains image.sites site → (n : ℕ) → 5 ≤ n
        → (more : List ℕ) → decoded (part (patched image.text 0 image.sites) site.at n ++ more)
        ≡ answer.Insn jump_out 5 }
    ensures jump_cut { (image : Image) → IsAccepted image → (site : Site) → Contains image.sites site → (n : ℕ)
        → n < 5 → decoded (part (patched image.text 0 image.sites) site.at n) ≡ answer.Short }
    ensures leads { (image : Image) → IsAccepted image → (site : Site) → Contains image.sites site
        → ((linear site.at + 5) % 2 ^ 32 + jump_out.imm) % 2 ^ 32 ≡ window_at site.at }
    ensures effect { (image : Image) → IsAccepted image → (site : Site) → Contains image.sites site → (r : Regs)
        → r.eip ≡ linear site.at → (b : ℕ → ℕ)
        → effect jump_out 5 r b ≡ Done (record r { eip = window_at site.at }) Nothing }
    ensures window { (image : Image) → IsAccepted image → (site : Site) → Contains image.sites site
        → (WINDOW_ADDRESS ≤ window_at site.at) × (window_at site.at < WINDOW_END) }
    ensures one_site { (image : Image) → IsAccepted image → (s t : Site) → Contains image.sites s
        → Contains image.sites t → window_at s.at ≡ window_at t.at → s ≡ t }
    ensures names { (at : ℕ) → window_at at + WINDOW_BELOW ≡ linear at }
{}
