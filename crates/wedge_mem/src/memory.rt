//! The guest's memory of one step of a patched run.

ghost use Rattle.std.proofs.Props.{props};
ghost use Rattle.std.specs.Prelude.{◌≡◌, ◌+◌, ◌*◌, ◌/◌, ◌%◌, ◌≤◌, ◌^◌, length, take, false};
ghost use Rattle.frame_pool.specs.Held.{Moves, Owns};
ghost use Rattle.frame_pool.specs.Pool.{base_of, free_list};
ghost use Rattle.paging.specs.Ready.{HasRange, Readied};
ghost use Rattle.paging.specs.Uses.{fetches};
ghost use Rattle.shadow_tables.specs.Entries.{entries_of};
ghost use Rattle.step_mem.specs.Changes.{AreWithin};
ghost use Rattle.step_mem.specs.Shown.{beyond};
ghost use Rattle.wedge_mem.specs.Finished.{IsSettled};
ghost use Rattle.wedge_mem.specs.Progress.{KeepsOthers, owning, space_at_first, space_in};
ghost use Rattle.wedge_mem.specs.Seen.{IsGoingBy};
ghost use Rattle.wedge_mem.specs.Settled.{IsCount, pages_of};

use crate::lent::Lent;
use crate::pages::entries_used;
use crate::progress::Progress;
use crate::{serving, settling};
use descriptors::Cpu;
use frame_pool::Pool;
use guest_ram::Ram;
use ia32_types::Size;
use paging::{Access, GuestMem, Touch};
use shadow_tables::{Shadows, Side};
use step_mem::Control;

/// The guest's memory of one step, over RAM, the pool and the shadows. The frames of the text are kept from data, and a
/// fetch finds in them what memory has: the patched text.
#[derive(Drop)]
pub struct WedgeMem<'a, S: Shadows> {
    ram: &'a mut Ram,
    pool: &'a mut Pool,
    shadows: &'a mut S,
    step: Progress,
    ghost laid: { step.first + step.count ≤ step.state.control.frames } by { Prim.hlevel props },
    ghost going: { IsGoingBy S.Shadows shadows.now pool.now ram.now step } by { Prim.hlevel props },
}

impl<'a, S: Shadows> WedgeMem<'a, S> {
    /// A step begins, by the processor's control registers: no entry is used yet. `text_at` is the physical address of
    /// the text, which has `text_frames` frames among the guest's.
    pub fn new(
        ram: &'a mut Ram,
        pool: &'a mut Pool,
        shadows: &'a mut S,
        cpu: &Cpu,
        frames: u32,
        text_at: u32,
        text_frames: u32,
    ) -> WedgeMem<'a, S>
        requires stands { ∥ S.stands shadows.old ram.old ∥₁ }
        requires owns { Owns pool.old ram.old (S.frames shadows.old ram.old) }
        requires below { frames ≤ base_of pool.old }
        requires text { text_at / 4096 + text_frames ≤ frames }
        requires within { AreWithin frames (entries_of (S.slots shadows.old ram.old)) }
        ensures space { ⟦<WedgeMem<'a, S> as GuestMem>⟧.space result
            ≡ space_at_first ram.old (entries_of (S.slots shadows.old ram.old)) frames cpu.now (text_at / 4096) text_frames }
        ensures same_memory { result.ram.ghost_name ≡ ram.entry.ghost_name }
        ensures same_pool { result.pool.ghost_name ≡ pool.entry.ghost_name }
        ensures same_shadows { result.shadows.ghost_name ≡ shadows.entry.ghost_name }
        ensures memory { result.ram.now ≡ ram.old }
        ensures pool { result.pool.now ≡ pool.old }
        ensures shadows { result.shadows.now ≡ shadows.old }
    {
        let control = Control {
            frames,
            cr3: cpu.cr3,
            pse: cpu.pse(),
            wp: cpu.wp(),
        };
        WedgeMem {
            ram,
            pool,
            shadows,
            step: Progress::new(control, text_at / 4096, text_frames),
        }
    }

    /// Translates a fetch of bytes that lie in one page.
    pub fn fetch(&mut self, at: u32, len: u32, user: bool) -> Touch
        requires room { (⟦<WedgeMem<'a, S> as GuestMem>⟧.space self.old).pages ≤ 63 }
        requires one { at % 4096 + len ≤ 4096 }
        ensures fetches { fetches (⟦<WedgeMem<'a, S> as GuestMem>⟧.space self.old) at len user
            ≡ (result, ⟦<WedgeMem<'a, S> as GuestMem>⟧.space self.new) }
        ensures pages { (⟦<WedgeMem<'a, S> as GuestMem>⟧.space self.new).pages
            ≤ (⟦<WedgeMem<'a, S> as GuestMem>⟧.space self.old).pages + 1 }
        ensures ready { Readied (⟦<WedgeMem<'a, S> as GuestMem>⟧.space self.new) at len false result }
        ensures found { result ≡ Touch.Ready → HasRange (⟦<WedgeMem<'a, S> as GuestMem>⟧.space self.new) at len }
        ensures others { KeepsOthers (⟦<WedgeMem<'a, S> as GuestMem>⟧.space self.old)
            (⟦<WedgeMem<'a, S> as GuestMem>⟧.space self.new) (at / 4096) }
        ensures frame { ⟦<WedgeMem<'a, S> as GuestMem>⟧.frame self.new ≡ ⟦<WedgeMem<'a, S> as GuestMem>⟧.frame self.old }
    {
        let lent = Lent {
            shadows: &*self.shadows,
            pool: &*self.pool,
        };
        serving::fetch(self.ram, &lent, &mut self.step, at, len, user)
    }

    /// Names the bytes of this step's instruction, which fetches of this step made ready, in one page or two: no walk may set
    /// a flag in them. A page that a fetch made ready is found, and stays so over a fetch of another page.
    pub fn own(&mut self, at: u32, len: u32)
        requires some { 1 ≤ len }
        requires short { len ≤ 4096 }
        requires fits { at + len ≤ 2 ^ 32 }
        requires found { HasRange (⟦<WedgeMem<'a, S> as GuestMem>⟧.space self.old) at len }
        ensures owns { ⟦<WedgeMem<'a, S> as GuestMem>⟧.space self.new ≡ owning (⟦<WedgeMem<'a, S> as GuestMem>⟧.space self.old) at len }
        ensures frame { ⟦<WedgeMem<'a, S> as GuestMem>⟧.frame self.new ≡ ⟦<WedgeMem<'a, S> as GuestMem>⟧.frame self.old }
    {
        let lent = Lent {
            shadows: &*self.shadows,
            pool: &*self.pool,
        };
        serving::own(self.ram, &lent, &mut self.step, at, len);
    }

    /// The step is over: the entries that it used are filled on that side, and counted. None where fewer frames are
    /// free than entries were used: all is dropped then. The next step begins under the same registers.
    pub fn finish(&mut self, side: Side) -> Option<u32>
        ensures stands { ∥ S.stands self.new.shadows.now self.new.ram.now ∥₁ }
        ensures owns { Owns self.new.pool.now self.new.ram.now (S.frames self.new.shadows.now self.new.ram.now) }
        ensures moves { Moves self.old.pool.now self.new.pool.now self.old.ram.now self.new.ram.now
            (S.frames self.old.shadows.now self.old.ram.now) (S.frames self.new.shadows.now self.new.ram.now) }
        ensures count { IsCount (⟦<WedgeMem<'a, S> as GuestMem>⟧.space self.old).set
            (pages_of self.old.step.state.visited self.old.step.state.changes)
            (length (free_list self.old.pool.now self.old.ram.now)) result }
        ensures settled { IsSettled S.Shadows self.old.shadows.now self.new.shadows.now self.old.ram.now self.new.ram.now
            (⟦<WedgeMem<'a, S> as GuestMem>⟧.space self.old)
            (pages_of self.old.step.state.visited self.old.step.state.changes) side result }
        ensures guest { take (4096 * base_of self.old.pool.now) self.new.ram.now
            ≡ take (4096 * base_of self.old.pool.now) self.old.ram.now }
        ensures begins { ((⟦<WedgeMem<'a, S> as GuestMem>⟧.space self.new).pages ≡ 0)
            × ((⟦<WedgeMem<'a, S> as GuestMem>⟧.space self.new).set ≡ entries_of (S.slots self.new.shadows.now self.new.ram.now)) }
        ensures same_memory { self.new.ram.ghost_name ≡ self.old.ram.ghost_name }
        ensures same_pool { self.new.pool.ghost_name ≡ self.old.pool.ghost_name }
        ensures same_shadows { self.new.shadows.ghost_name ≡ self.old.shadows.ghost_name }
    {
        let text = self.step.text();
        let state = self.step.state(&text);
        let used = entries_used(self.shadows, self.ram, &state);
        let filled = settling::settle(self.shadows, self.ram, self.pool, &state, side);
        self.step = Progress::new(self.step.state.control, self.step.first, self.step.count);
        match filled {
            Some(_) => Some(used),
            None => None,
        }
    }
}

impl<'a, S: Shadows> GuestMem for WedgeMem<'a, S> {
    ghost space = { λ w. space_in (λ m. entries_of (S.slots w.shadows.now m)) w.ram.now w.step };

    /// The names of the three references, the shadows and the pool, the registers that govern a walk, the frames
    /// of the text, and what the step doesn't reach.
    type Frame = (u64, u64, u64, S, Pool, Control, u32, u32, Ram);

    ghost frame = { λ w. (
      w.ram.ghost_name,
      w.pool.ghost_name,
      w.shadows.ghost_name,
      w.shadows.now,
      w.pool.now,
      w.step.state.control,
      w.step.first,
      w.step.count,
      beyond w.step.first w.step.count w.step.state.control.frames w.ram.now,
    ) };

    fn touch(&mut self, at: u32, len: u32, access: Access) -> Touch {
        let lent = Lent {
            shadows: &*self.shadows,
            pool: &*self.pool,
        };
        serving::touch(self.ram, &lent, &mut self.step, at, len, access)
    }

    fn load(&mut self, at: u32, size: Size) -> u32 {
        let lent = Lent {
            shadows: &*self.shadows,
            pool: &*self.pool,
        };
        serving::load(self.ram, &lent, &self.step, at, size)
    }

    fn load_earlier(&mut self, at: u32, size: Size) -> u32 {
        let lent = Lent {
            shadows: &*self.shadows,
            pool: &*self.pool,
        };
        serving::load_earlier(self.ram, &lent, &self.step, at, size)
    }

    fn save(&mut self, at: u32, size: Size, value: u32) {
        let lent = Lent {
            shadows: &*self.shadows,
            pool: &*self.pool,
        };
        serving::save(self.ram, &lent, &self.step, at, size, value);
    }
}
