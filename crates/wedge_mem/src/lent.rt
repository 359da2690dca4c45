//! Shadows as a keeper of translations, lent for one step.

ghost use Rattle.std.specs.Prelude.{◌≡◌, ◌*◌, ◌≤◌};
ghost use Rattle.frame_pool.specs.Pool.{base_of};
ghost use Rattle.frame_pool.specs.Held.{Owns};
ghost use Rattle.shadow_tables.specs.Entries.{entries_of};
ghost use Rattle.wedge_mem.specs.Owned as laws;

use frame_pool::Pool;
use guest_ram::Ram;
use ia32_types::PAGES;
use paging::Entry;
use shadow_tables::Shadows;
use step_mem::Translations;

/// Shadows and the pool of their frames, which no step changes before its end.
#[derive(Clone, Copy)]
pub struct Lent<'a, S: Shadows> {
    pub shadows: &'a S,
    pub pool: &'a Pool,
}

impl<'a, S: Shadows> Translations for Lent<'a, S> {
    ghost entries = { λ k ram. entries_of (S.slots k.shadows.now ram) };

    /// All frames of the pool lie after the guest's.
    ghost floor = { λ k. 4096 * base_of k.pool.now };

    ghost stands = { λ k ram. (∥ S.stands k.shadows.now ram ∥₁) × Owns k.pool.now ram (S.frames k.shadows.now ram) };

    ghost apart = { λ k limit old new h same len s.
        S.same_entries k.shadows.now old new (laws.first s) (S.above k.shadows.now k.pool.now old new limit (laws.owns s) h same len) };

    ghost stays = { λ k limit old new h same len s.
        laws.both (S.stays k.shadows.now old new (laws.first s) (S.above k.shadows.now k.pool.now old new limit (laws.owns s) h same len))
        (S.owned_above k.shadows.now k.pool.now old new limit (laws.first s) (laws.owns s) h same len) };

    fn entry(&self, ram: &Ram, page: u32) -> Option<Entry> {
        if page >= PAGES {
            return None;
        }
        self.shadows.kept(ram, page)
    }
}
