//! Telling the shadows which frames a step read as tables, and which it wrote.

ghost use Rattle.std.specs.Prelude.{◌≡◌, ◌≤◌, ℕ, length, [], ◌∷◌, Bool};
ghost use Rattle.frame_pool.specs.Pool.{free_list};
ghost use Rattle.frame_pool.specs.Held.{Owns, Moves, Writes};
ghost use Rattle.shadow_tables.specs.OtherRoot.{AreSame, LoseWrites, all_spared};
ghost use Rattle.shadow_tables.specs.Entries.{entries_of};
ghost use Rattle.shadow_tables.specs.Slots.{SameSlots};
ghost use Rattle.shadow_tables.specs.declared.words.Side.{Side as View};
ghost use Rattle.wedge_mem.specs.Seen.{KnowsWritten};
ghost use Rattle.wedge_mem.specs.Settled.{LosesSome};
ghost use Rattle.wedge_mem.specs.Told.{guest_frames, read_by};

use frame_pool::Pool;
use guest_ram::Ram;
use shadow_tables::Shadows;

/// Notes a frame that was read as a table. A guest has no frame from 16,384 on.
fn note_table<S: Shadows>(shadows: &mut S, ram: &mut Ram, frame: u32)
    requires stands { ∥ S.stands shadows.old ram.old ∥₁ }
    ensures stands { ∥ S.stands shadows.new ram.new ∥₁ }
    ensures read_from { (f : ℕ) → S.read_from shadows.new f ≡ read_by (S.read_from shadows.old) (frame ∷ []) f }
    ensures stale { S.stale shadows.new ≡ S.stale shadows.old }
    ensures cr3 { S.cr3 shadows.new ≡ S.cr3 shadows.old }
    ensures other_roots { LoseWrites (guest_frames (frame ∷ [])) (S.other_roots shadows.old ram.old) (S.other_roots shadows.new ram.new) }
    ensures slots { LosesSome (guest_frames (frame ∷ [])) (S.slots shadows.old ram.old) (S.slots shadows.new ram.new) }
    ensures entries { entries_of (S.slots shadows.new ram.new) ≡ entries_of (S.slots shadows.old ram.old) }
    ensures has_tables_under { (indices : ℕ → Bool) → S.has_tables_under shadows.old ram.old indices
        → S.has_tables_under shadows.new ram.new indices }
    ensures roots { (view : View) → S.directory shadows.new view ≡ S.directory shadows.old view }
    ensures frames { S.frames shadows.new ram.new ≡ S.frames shadows.old ram.old }
    ensures memory { Writes (S.frames shadows.old ram.old) ram.old ram.new }
{
    if frame < 16384 {
        shadows.note(ram, frame);
    }
}

/// Notes the frames that were read as tables.
pub fn note_tables<S: Shadows>(shadows: &mut S, ram: &mut Ram, tables: &[u32])
    requires stands { ∥ S.stands shadows.old ram.old ∥₁ }
    ensures stands { ∥ S.stands shadows.new ram.new ∥₁ }
    ensures read_from { (frame : ℕ) → S.read_from shadows.new frame ≡ read_by (S.read_from shadows.old) tables.now frame }
    ensures stale { S.stale shadows.new ≡ S.stale shadows.old }
    ensures cr3 { S.cr3 shadows.new ≡ S.cr3 shadows.old }
    ensures other_roots { LoseWrites (guest_frames tables.now) (S.other_roots shadows.old ram.old) (S.other_roots shadows.new ram.new) }
    ensures slots { LosesSome (guest_frames tables.now) (S.slots shadows.old ram.old) (S.slots shadows.new ram.new) }
    ensures entries { entries_of (S.slots shadows.new ram.new) ≡ entries_of (S.slots shadows.old ram.old) }
    ensures has_tables_under { (indices : ℕ → Bool) → S.has_tables_under shadows.old ram.old indices
        → S.has_tables_under shadows.new ram.new indices }
    ensures roots { (view : View) → S.directory shadows.new view ≡ S.directory shadows.old view }
    ensures frames { S.frames shadows.new ram.new ≡ S.frames shadows.old ram.old }
    ensures memory { Writes (S.frames shadows.old ram.old) ram.old ram.new }
{
    for frame in tables {
        note_table(shadows, ram, *frame);
    }
}

/// Tells of the frames that were written, or are about to be.
pub fn tell_written<S: Shadows>(shadows: &mut S, ram: &mut Ram, pool: &mut Pool, wrote: &[u32])
    requires stands { ∥ S.stands shadows.old ram.old ∥₁ }
    requires owns { Owns pool.old ram.old (S.frames shadows.old ram.old) }
    ensures stands { ∥ S.stands shadows.new ram.new ∥₁ }
    ensures slots { SameSlots (S.slots shadows.old ram.old) (S.slots shadows.new ram.new) }
    ensures entries { entries_of (S.slots shadows.new ram.new) ≡ entries_of (S.slots shadows.old ram.old) }
    ensures known { KnowsWritten S.Shadows wrote.now shadows.old shadows.new }
    ensures other_roots { AreSame (all_spared wrote.now (S.other_roots shadows.old ram.old)) (S.other_roots shadows.new ram.new) }
    ensures has_tables_under { (indices : ℕ → Bool) → S.has_tables_under shadows.old ram.old indices
        → S.has_tables_under shadows.new ram.new indices }
    ensures roots { (view : View) → S.directory shadows.new view ≡ S.directory shadows.old view }
    ensures fewer { length (free_list pool.old ram.old) ≤ length (free_list pool.new ram.new) }
    ensures moves { Moves pool.old pool.new ram.old ram.new (S.frames shadows.old ram.old) (S.frames shadows.new ram.new) }
{
    for frame in wrote {
        shadows.written(ram, pool, *frame);
    }
}
