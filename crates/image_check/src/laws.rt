//! What the sweep is, in words that name no order of work.

ghost use Rattle.std.specs.Prelude.{◌≡◌, ◌≢◌, ◌↔◌, ◌-◌, ◌&&◌, ℕ, true, false, max, List, [], ◌∷◌, drop, Some, None, Ok, Err};
ghost use Rattle.ia32_types.specs.declared.site.SiteKind.{SiteKind as KindView};
ghost use Rattle.elf_form.specs.ImageParts.{ImageParts};
ghost use Rattle.elf_form.specs.Order.{IsFirstOf};
ghost use Rattle.ia32_rows.specs.Spells.{AreBytes};
ghost use Rattle.image_check.specs.Sweep.{Swept, sweep};
ghost use Rattle.image_check.specs.SweptTexts.{Sweep, SweepStops};
ghost use Rattle.image_check.specs.Refusals.{Wrong};
ghost use Rattle.image_check.specs.Checking.{image_from};
ghost use Rattle.image_check.specs.TextSites.{is_sti, has_nops, has_hlt, pair, single, found_in, with_site};
ghost use Rattle.image_check.specs.Causes.{wrong, causes};
ghost use Rattle.image_check.specs.Reasons.{IsWrong, IsRefused};
ghost use Rattle.image_check.specs.declared.piece.Piece.{Piece as PieceView};
ghost use Rattle.image_check.specs.declared.piece.Role.TheVariants as role;
ghost use Rattle.image_check.specs.declared.fault.CheckCause.{CheckCause};

/// The sweep of a text is there for at most one list of instructions, and is what the definition
/// computes; else it stops at one offset.
pub fn one_sweep()
    ensures sweep { (text : List ℕ) → AreBytes text → (swept : List Swept) → (sweep text ≡ Ok swept) ↔ Sweep text swept }
    ensures stop { (text : List ℕ) → AreBytes text → (at : ℕ) → (sweep text ≡ Err at) ↔ SweepStops text at }
{}

/// What is said of an image that is not accepted is the first cause by which it is wrong, at its
/// place.
pub fn first_cause()
    ensures { (parts : ImageParts) (at : ℕ) (cause : CheckCause) → (image_from parts ≡ Err (Wrong at cause))
        ↔ IsFirstOf (wrong parts) causes at cause }
{}

/// An image is wrong by a cause, at a place, exactly where the condition of that cause holds there.
pub fn causes_are_conditions()
    ensures { (parts : ImageParts) → AreBytes parts.text → (cause : CheckCause) (at : ℕ)
        → (wrong parts cause ≡ Some at) ↔ IsWrong cause parts at }
{}

/// An image is refused, by a cause and at a place, exactly where the condition of that cause holds
/// there and none holds, at any place, of a cause that comes before it.
pub fn refused_in_order()
    ensures { (parts : ImageParts) → AreBytes parts.text → (at : ℕ) (cause : CheckCause)
        → (image_from parts ≡ Err (Wrong at cause)) ↔ IsRefused parts at cause }
{}

/// The sites of a text by what stands at its front: an instruction that isn't sensitive makes none;
/// STI, HLT and three NOPs make one; another sensitive instruction with its NOPs makes one; and one
/// that lacks them ends the list.
pub fn sites_from_the_front()
    ensures none { found_in [] ≡ record { sites = []; lacking = None } }
    ensures insensitive { (p : PieceView) (ps : List PieceView) → ((kind : KindView) → p.role ≢ role.Site kind)
        → found_in (p ∷ ps) ≡ found_in ps }
    ensures pair { (p : PieceView) (ps : List PieceView) → (is_sti p.role && has_hlt ps) ≡ true → p.len ≡ 1
        → found_in (p ∷ ps) ≡ with_site (pair p) (found_in (drop 4 ps)) }
    ensures alone { (p : PieceView) (ps : List PieceView) (kind : KindView) → p.role ≡ role.Site kind
        → (is_sti p.role && has_hlt ps) ≡ false → has_nops (max 5 p.len - p.len) ps ≡ true
        → found_in (p ∷ ps) ≡ with_site (single p kind) (found_in (drop (max 5 p.len - p.len) ps)) }
    ensures lacking { (p : PieceView) (ps : List PieceView) (kind : KindView) → p.role ≡ role.Site kind
        → (is_sti p.role && has_hlt ps) ≡ false → has_nops (max 5 p.len - p.len) ps ≡ false
        → found_in (p ∷ ps) ≡ record { sites = []; lacking = Some p.at } }
{}
