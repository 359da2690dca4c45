//! Reading the instruction at a linear address.

ghost use Rattle.std.specs.Prelude.{◌≡◌, ◌+◌, ◌*◌, ◌-◌, ◌/◌, ◌%◌, ◌<◌, ◌≤◌, ◌^◌, ◌++◌, [], length, List, ℕ, IfOk, OnOk, IfErr};
ghost use Rattle.ia32_decode.specs.Decoding.{decoded};
ghost use Rattle.ia32_decode.specs.Front.{front_len};
ghost use Rattle.ia32_decode.specs.Spelled.{IsSpelled};
ghost use Rattle.paging.specs.Gives.{Gives};
ghost use Rattle.step_mem.specs.Changes.{HasEntry};
ghost use Rattle.step_mem.specs.Pages.{bytes_from};
ghost use Rattle.machine_model.specs.Instruction.{fetching, fetched_on, fetched, next_page};
ghost use Rattle.machine_model.specs.UsedPages.{Uses, AtRefusal};
ghost use Rattle.machine_step.specs.Fetches.{GivesAs, found_by};

use arrayvec::ArrayVec;
use ia32_decode::{
    Bytes, Decoded, LONGEST, append, decode, decode_into, decode_joined_into, front_len, next_page,
};
use ia32_types::Stop;
use machine_model::works_use;
use paging::Touch;
use step_exec::StepMemory;
use sys_exec::Refusal;

/// The instruction at a linear address. Where the bytes of the first page are a proper prefix of a spelling, the
/// second page is reached too.
pub fn fetch<M: StepMemory>(mem: &mut M, user: bool, at: u32) -> Result<Decoded, Refusal>
    requires room { (M.space mem.old).pages ≤ 62 }
    ensures uses { OnOk result (Uses user (M.space mem.old) (M.space mem.new)) }
    ensures refused { IfErr result (λ refusal. AtRefusal user (M.space mem.old) refusal (M.space mem.new)) }
    ensures fetched { Gives result (M.space mem.new) (fetched user at (M.space mem.old)) }
    ensures spelled { IfOk result IsSpelled }
    ensures pages { (M.space mem.new).pages ≤ (M.space mem.old).pages + 2 }
    ensures frame { M.frame mem.new ≡ M.frame mem.old }
{
    let mut found = Decoded::Outside;
    match fetch_into(mem, user, at, &mut found) {
        Ok(()) => Ok(found),
        Err(refusal) => Err(refusal),
    }
}

/// Fetches the instruction at a linear address, as `fetch`, into the place that the caller has for it.
pub fn fetch_into<M: StepMemory>(
    mem: &mut M,
    user: bool,
    at: u32,
    found: &mut Decoded,
) -> Result<(), Refusal>
    requires room { (M.space mem.old).pages ≤ 62 }
    ensures uses { OnOk result (Uses user (M.space mem.old) (M.space mem.new)) }
    ensures refused { IfErr result (λ refusal. AtRefusal user (M.space mem.old) refusal (M.space mem.new)) }
    ensures fetched { Gives (found_by result found.new) (M.space mem.new) (fetched user at (M.space mem.old)) }
    ensures spelled { OnOk result (IsSpelled found.new) }
    ensures pages { (M.space mem.new).pages ≤ (M.space mem.old).pages + 2 }
    ensures frame { M.frame mem.new ≡ M.frame mem.old }
{
    works_use();
    match fetch_pages(mem, user, at, found) {
        Ok(()) => Ok(()),
        Err(refusal) => Err(refusal),
    }
}

// From the first page, or both.
#[tactic(auto, unfolding(machine_model::specs::Instruction::fetched, machine_model::specs::Instruction::owning_front))]
fn fetch_pages<M: StepMemory>(
    mem: &mut M,
    user: bool,
    at: u32,
    found: &mut Decoded,
) -> Result<(), Refusal>
    requires room { (M.space mem.old).pages ≤ 62 }
    ensures fetched { Gives (found_by result found.new) (M.space mem.new) (fetched user at (M.space mem.old)) }
    ensures spelled { OnOk result (IsSpelled found.new) }
    ensures pages { (M.space mem.new).pages ≤ (M.space mem.old).pages + 2 }
    ensures frame { M.frame mem.new ≡ M.frame mem.old }
{
    let front = front_len(at);
    fetch_page(mem, user, at, front)?;
    decode_page(mem, at, front, found);
    match found {
        Decoded::Insn(_, len) => {
            let len = *len;
            mem.own_front(at, u32::from(len));
            Ok(())
        }
        Decoded::Outside => Ok(()),
        Decoded::Short => match next_page(at) {
            None => Err(Refusal::Stop(Stop::WrapAccess)),
            Some(next) => match fetch_on(mem, user, at, next) {
                Ok(whole) => {
                    *found = whole;
                    Ok(())
                }
                Err(refusal) => Err(refusal),
            },
        },
    }
}

// With bytes of the second page too, after those that the first page has now.
fn fetch_on<M: StepMemory>(mem: &mut M, user: bool, at: u32, next: u32) -> Result<Decoded, Refusal>
    requires room { (M.space mem.old).pages ≤ 63 }
    requires found { HasEntry (M.space mem.old).set at }
    requires next { next ≡ next_page at }
    ensures fetched { Gives result (M.space mem.new)
        (fetched_on user at (bytes_from (M.space mem.old) at (front_len at))
        (M.space mem.old)) }
    ensures spelled { IfOk result IsSpelled }
    ensures pages { (M.space mem.new).pages ≤ (M.space mem.old).pages + 1 }
    ensures frame { M.frame mem.new ≡ M.frame mem.old }
{
    let mut bytes: Bytes = ArrayVec::new();
    let front = front_len(at);
    read_page(mem, at, front, &mut bytes);
    mem.own_front(at, front);
    fetch_page(mem, user, next, LONGEST)?;
    read_page(mem, next, LONGEST, &mut bytes);
    match decode(bytes.as_slice()) {
        Decoded::Insn(insn, len) => {
            let back = u32::from(len).saturating_sub(front);
            mem.own_back(next, back);
            Ok(Decoded::Insn(insn, len))
        }
        Decoded::Outside => Ok(Decoded::Outside),
        Decoded::Short => Ok(Decoded::Short),
    }
}

// Translates the page of a fetch.
fn fetch_page<M: StepMemory>(mem: &mut M, user: bool, at: u32, len: u32) -> Result<(), Refusal>
    requires room { (M.space mem.old).pages ≤ 63 }
    requires some { 0 < len }
    requires one { at % 4096 + len ≤ 4096 }
    ensures fetching { GivesAs (λ _. bytes_from (M.space mem.new) at len) result
        (M.space mem.new) (fetching user at len (M.space mem.old)) }
    ensures found { OnOk result (HasEntry (M.space mem.new).set at) }
    ensures pages { (M.space mem.new).pages ≤ (M.space mem.old).pages + 1 }
    ensures frame { M.frame mem.new ≡ M.frame mem.old }
{
    match mem.fetch(at, len, user) {
        Touch::Ready => Ok(()),
        Touch::Fault { code, at } => Err(Refusal::Fault { code, at }),
        Touch::Stop(stop) => Err(Refusal::Stop(stop)),
    }
}

// What the bytes of a page begin with, from an address on.
fn decode_page<M: StepMemory>(mem: &M, at: u32, len: u32, found: &mut Decoded)
    requires found { HasEntry (M.space mem.now).set at }
    requires few { len ≤ 11 }
    requires one { at % 4096 + len ≤ 4096 }
    ensures exact { found.new ≡ decoded (bytes_from (M.space mem.now) at len) }
    ensures spelled { IsSpelled found.new }
{
    let bytes = mem.bytes(at, len);
    decode_pieces(bytes.text, bytes.ram, found);
}

// What bytes begin with that lie in two pieces, of which one is mostly empty.
fn decode_pieces(front: &[u8], back: &[u8], found: &mut Decoded)
    requires few { length front.now + length back.now ≤ 11 }
    ensures exact { found.new ≡ decoded (front.now ++ back.now) }
    ensures spelled { IsSpelled found.new }
{
    if front.is_empty() {
        decode_into(back, found);
        return;
    }
    if back.is_empty() {
        decode_into(front, found);
        return;
    }
    decode_joined_into(front, back, found);
}

// Puts the bytes of a page, from an address on, after others.
fn read_page<M: StepMemory>(mem: &M, at: u32, len: u32, to: &mut Bytes)
    requires found { HasEntry (M.space mem.now).set at }
    requires one { at % 4096 + len ≤ 4096 }
    requires room { length to.old.items + len ≤ 32 }
    ensures bytes { to.new.items ≡ to.old.items ++ bytes_from (M.space mem.now) at len }
    ensures len { length to.new.items ≡ length to.old.items + len }
{
    let found = mem.bytes(at, len);
    append(found.text, to);
    append(found.ram, to);
}
