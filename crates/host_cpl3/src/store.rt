//! Writing what an instruction writes.

ghost use Rattle.std.specs.Prelude.{◌≡◌, ◌+◌, ◌*◌, ◌<◌, ◌^◌, length, ℕ};
ghost use Rattle.ia32_types.specs.Size.{span};
ghost use Rattle.guest_ram.specs.Bytes.{with_byte};
ghost use Rattle.ia32_exec.specs.Readable.{IsAllAt};
ghost use Rattle.ia32_exec.specs.Commit.{list_of};
ghost use Rattle.ia32_exec.specs.Outcomes.{AreStored};
ghost use Rattle.host_cpl3.specs.KeptWalks.{SameBut};
ghost use Rattle.paging.specs.Numbers.{number_stored};
ghost use Rattle.host_cpl3.specs.Store.{all_stored};
ghost use Rattle.host_cpl3.specs.Reaches.{placed, IsWritten};

use crate::reach::Reach;
use guest_ram::Ram;
use ia32_exec::{Store, Stores, Writer, write_all};
use ia32_types::Size;

#[inline(always)]
fn store_byte(ram: &mut Ram, reach: &Reach, at: u32, value: u8)
    requires { placed reach.now at < length ram.old }
    ensures memory { ram.new ≡ with_byte ram.old (placed reach.now at) value }
    ensures same { SameBut ram.old ram.new reach.now.first reach.now.last }
{
    ram.write8(reach.placed(at), value);
}

#[tactic(auto, using(crate::proofs::Writing::but_trans))]
#[inline(always)]
fn write_one(ram: &mut Ram, reach: &Reach, at: u32, size: Size, value: u32)
    requires { IsAllAt (IsWritten (length ram.old) reach.now) at size }
    ensures memory { ram.new ≡ number_stored (placed reach.now) ram.old at size value }
    ensures same { SameBut ram.old ram.new reach.now.first reach.now.last }
{
    match size {
        Size::Byte => store_byte(ram, reach, at, (value % 256) as u8),
        Size::Word => {
            store_byte(ram, reach, at, (value % 256) as u8);
            store_byte(ram, reach, at + 1, (value / 256 % 256) as u8);
        }
        Size::Long => {
            store_byte(ram, reach, at, (value % 256) as u8);
            store_byte(ram, reach, at + 1, (value / 256 % 256) as u8);
            store_byte(ram, reach, at + 2, (value / 65536 % 256) as u8);
            store_byte(ram, reach, at + 3, (value / 16777216) as u8);
        }
    }
}

impl Writer for Reach {
    ghost use Rattle.std.specs.Prelude.{◌≡◌, ⊤, length};
    ghost use Rattle.host_cpl3.specs.Reaches.{IsWritten, placed};
    ghost use Rattle.host_cpl3.specs.KeptWalks.{SameBut};
    ghost use Rattle.paging.specs.Numbers.{number_stored};

    type Memory = Ram;

    ghost stands = { λ reach ram. ⊤ };

    ghost writable = { λ reach ram at. IsWritten (length ram) reach at };

    ghost written = { λ reach old w new.
        (new ≡ number_stored (placed reach) old w.at w.size w.value) × SameBut old new reach.first reach.last };

    ghost in_space = { λ reach ram at h. h.space };

    #[inline(always)]
    fn write(&self, ram: &mut Ram, store: Store) {
        write_one(ram, self, store.at, store.size, store.value);
    }
}

/// Writes numbers into a range that was reached.
#[inline(always)]
pub fn store_all(ram: &mut Ram, reach: &Reach, stores: &Stores)
    requires { AreStored (IsWritten (length ram.old) reach.now) stores.now }
    ensures memory { ram.new ≡ all_stored (placed reach.now) ram.old (list_of stores.now) }
    ensures same { SameBut ram.old ram.new reach.now.first reach.now.last }
{
    write_all(reach, ram, stores);
}
