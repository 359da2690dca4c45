//! Laws of the definitions: what instructions do one after another.

ghost use Rattle.std.specs.Prelude.{◌≡◌, ◌<◌, ◌+◌, ◌*◌, ◌/◌, ◌%◌, ◌^◌, ◌==◌, ℕ, suc, Bool, true, false, List, slice_index};
ghost use Rattle.ia32_types.specs.declared.insn.Insn.{Insn};
ghost use Rattle.ia32_types.specs.declared.insn.Op.TheVariants.{Push, Pop, Pusha, Popa};
ghost use Rattle.ia32_types.specs.declared.insn.Operand.TheVariants.{Register};
ghost use Rattle.ia32_types.specs.declared.size.Size.TheVariants.{Long};
ghost use Rattle.ia32_types.specs.Size.{width};
ghost use Rattle.ia32_exec.specs.declared.outcome.Store.{Store as StoreView};
ghost use Rattle.ia32_exec.specs.Stored.{stored, all_stored};
ghost use Rattle.ia32_exec.specs.Operands.{source_of};
ghost use Rattle.ia32_exec.specs.Registers.{with_register, eip_past};
ghost use Rattle.ia32_exec.specs.Readable.{IsString};
ghost use Rattle.ia32_exec.specs.Turns.{RegsAndBytes, after, all_written, turns, IsWhole, IsCountedOut};

/// PUSH, and then POP into a register, puts what was pushed into that register, and leaves ESP and
/// every other register as they were.
pub fn push_then_pop()
    ensures { (push pop : Insn) (n push_len pop_len : ℕ) (m : RegsAndBytes) →
        push.op ≡ Push → pop.op ≡ Pop → pop.a ≡ Register n → IsWhole m.regs →
        source_of push.a push.imm Long m.regs m.bytes < 2 ^ 32 →
        (after pop pop_len (after push push_len m)).regs
        ≡ eip_past pop_len (with_register Long n (source_of push.a push.imm Long m.regs m.bytes) (eip_past push_len m.regs)) }
{}

/// PUSHA, and then POPA, leaves every register as it was, but EIP.
pub fn push_all_then_pop_all()
    ensures { (push pop : Insn) (push_len pop_len : ℕ) (m : RegsAndBytes) →
        push.op ≡ Pusha → pop.op ≡ Popa → IsWhole m.regs →
        (after pop pop_len (after push push_len m)).regs ≡ eip_past pop_len (eip_past push_len m.regs) }
{}

/// A string instruction with REP and ECX n, which is not 0, does in n steps what the instruction without
/// REP does when it is done n times. It leaves ECX 0 and then passes.
pub fn repeated_turns()
    ensures same { (i : Insn) (n len single_len : ℕ) (m : RegsAndBytes) →
        IsString i.op → i.rep ≡ true → IsWhole m.regs → slice_index m.regs.r 1 ≡ suc n →
        IsCountedOut (turns (suc n) (record i { rep = false }) single_len m) (turns (suc n) i len m) }
    ensures passes { (i : Insn) (n len : ℕ) (m : RegsAndBytes) →
        IsString i.op → i.rep ≡ true → IsWhole m.regs → slice_index m.regs.r 1 ≡ suc n →
        (turns (suc n) i len m).regs.eip ≡ (m.regs.eip + len) % 2 ^ 32 }
{}

/// After a write memory holds the number: each of its bytes is there, unless a later one is written to the same place,
/// and a byte to which none of its addresses leads stays. Where each address leads to a byte of its own, several
/// writes leave each byte of the last number that covers it.
#[tactic(auto, using(crate::proofs::StoreRules::held, crate::proofs::StoreRules::others, crate::proofs::StoreRules::flat))]
pub fn writes_hold()
    ensures held { (same : ℕ → ℕ → Bool) (w : StoreView) (b : ℕ → ℕ) (k : ℕ) →
        k < width w.size / 8 → same (w.at + k) (w.at + k) ≡ true →
        ((j : ℕ) → k < j → j < width w.size / 8 → same (w.at + j) (w.at + k) ≡ false) →
        stored same w b (w.at + k) ≡ w.value / 2 ^ (8 * k) % 2 ^ 8 }
    ensures others { (same : ℕ → ℕ → Bool) (w : StoreView) (b : ℕ → ℕ) (x : ℕ) →
        ((k : ℕ) → k < width w.size / 8 → same (w.at + k) x ≡ false) → stored same w b x ≡ b x }
    ensures flat { (ws : List StoreView) (b : ℕ → ℕ) → all_stored (λ i j. i == j) ws b ≡ all_written ws b }
{}
