//! Sweeps of texts that stand one after the other.

ghost use Rattle.std.specs.Prelude.{◌++◌, ◌∷◌, [], ℕ, List, length, map, replicate};
ghost use Rattle.ia32_rows.specs.Spells.{Spells};
ghost use Rattle.image_check.specs.Sweep.{Swept};
ghost use Rattle.image_check.specs.SweptTexts.{Sweep};
ghost use Rattle.built_images.specs.Joined.{swept_later, nop, sti, hlt, jump_to_itself, nops_at};

/// The sweep of two texts, one after the other, is that of the first and then that of the second, further on by the
/// length of the first; and what bytes of NOPs, `FB`, `F4` and `EB FE` spell.
pub fn sweeps()
    ensures joined { (a b : List ℕ) (first second : List Swept) → Sweep a first → Sweep b second
        → Sweep (a ++ b) (first ++ map (swept_later (length a)) second) }
    ensures nops { (n : ℕ) → Sweep (replicate n 0x90) (nops_at 0 n) }
    ensures nop { Spells (0x90 ∷ []) nop }
    ensures sti { Spells (0xFB ∷ []) sti }
    ensures hlt { Spells (0xF4 ∷ []) hlt }
    ensures jump { Spells (0xEB ∷ 0xFE ∷ []) jump_to_itself }
{}
