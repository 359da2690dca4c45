//! `exec`: an instruction done in the registers and in memory.

ghost use Rattle.std.specs.Prelude.{◌≡◌, ⊤};
ghost use Rattle.ia32_exec.specs.Stored.{all_stored, stored};
ghost use Rattle.ia32_exec.specs.Effect.{effect, ranges_of};
ghost use Rattle.ia32_types.specs.Shape.{IsShaped, IsDone};
ghost use Rattle.ia32_exec.specs.Commit.{list_of};
ghost use Rattle.ia32_exec.specs.Outcomes.{answer_of, registers_of, stores_of, AreStored, IsKeptUnlessWritten, IsReady};

use crate::effect_of::effect;
use crate::memory::{LinearMem, Reads};
use crate::outcome::{Effect, Outcome, Store, Stores};
use crate::writing::{Writer, write_all};
use ia32_types::{Insn, Regs};
use std::marker::PhantomData;

/// Writes through linear memory as the trait has it.
#[derive(Drop)]
struct Linear<M>(PhantomData<M>);

impl<M: LinearMem> Writer for Linear<M> {
    type Memory = M;

    ghost stands = { λ writer mem. ⊤ };

    ghost writable = { λ writer mem at. M.writable mem at };

    ghost written = { λ writer old store new.
        (M.byte new ≡ stored (M.same old) store (M.byte old)) × (M.same new ≡ M.same old) };

    ghost in_space = { λ writer mem at. M.write_in_space mem at };

    fn write(&self, mem: &mut M, store: Store) {
        mem.write(store.at, store.size, store.value);
    }
}

#[tactic(auto, unfolding(crate::specs::Stored::all_stored))]
fn write_linear<M: LinearMem>(stores: &Stores, mem: &mut M)
    requires { AreStored (M.writable mem.old) stores.now }
    ensures written { M.byte mem.new ≡ all_stored (M.same mem.old) (list_of stores.now) (M.byte mem.old) }
    ensures places { M.same mem.new ≡ M.same mem.old }
    ensures kept { IsKeptUnlessWritten stores.now mem.old mem.new }
{
    write_all(&Linear(PhantomData), mem, stores);
}

/// Does one insensitive instruction of `len` bytes, or PUSHF or POPF as they are at CPL 3 and IOPL 0.
/// After `Raise` or `Stop` the registers and the memory are as before. All that is read is read before
/// the first write.
///
/// The two conditions on the instruction hold of whatever bytes spell by the opcode table, where it is no
/// site but PUSHF and POPF, and neither INT nor INT3, which the machines deliver themselves. The crate of
/// the table shows that: its law `shapes` gives `shape`, and its law `done_by_registers` gives `kind`.
/// Of `len` nothing is asked; EIP passes that many bytes.
#[tactic(auto, unfolding(crate::specs::Stored::all_stored))]
pub fn exec<M: LinearMem>(insn: &Insn, len: u8, regs: &mut Regs, mem: &mut M) -> Effect
    requires kind { IsDone insn.now.op }
    requires shape { IsShaped insn.now }
    requires ready { IsReady (M.readable mem.old) (M.writable mem.old) (ranges_of insn.now regs.old) }
    ensures answer { result ≡ answer_of (effect insn.now len regs.old (M.byte mem.old)) }
    ensures registers { regs.new ≡ registers_of (effect insn.now len regs.old (M.byte mem.old)) regs.old }
    ensures memory { M.byte mem.new ≡ all_stored (M.same mem.old)
        (list_of (stores_of (effect insn.now len regs.old (M.byte mem.old)))) (M.byte mem.old) }
    ensures places { M.same mem.new ≡ M.same mem.old }
    ensures kept { IsKeptUnlessWritten (stores_of (effect insn.now len regs.old (M.byte mem.old))) mem.old mem.new }
{
    match effect(insn, len, regs, &Reads { mem: &*mem }) {
        Outcome::Done(after, stores) => {
            write_linear(&stores, mem);
            *regs = after;
            Effect::Next
        }
        Outcome::Raise(vector, code) => Effect::Raise(vector, code),
        Outcome::Stop(stop) => Effect::Stop(stop),
    }
}
