//! Laws of the definitions, in the words of arithmetic.

ghost use Rattle.std.specs.Prelude.{◌≡◌, ℕ, ◌+◌, ◌*◌, ◌/◌, ◌%◌, ◌<◌, Bool, true, false, not, ◌&&◌, ◌==◌, Some, IfSome, nat_lt, is_some};
ghost use Rattle.std.specs.Int.RustNames.{int_div};
ghost use Rattle.ia32_types.specs.declared.flags.Flags.{Flags};
ghost use Rattle.ia32_types.specs.declared.size.Size.{Size};
ghost use Rattle.ia32_types.specs.declared.insn.Op.TheVariants.{Add, Adc, Sub, Sbb, Cmp};
ghost use Rattle.ia32_types.specs.Size.{span};
ghost use Rattle.ia32_types.specs.Bits.{bit, worth, low, signed, signed_at, fits};
ghost use Rattle.ia32_types.specs.declared.flags.TheConstants.{CARRY_AT};
ghost use Rattle.ia32_alu.specs.Arithmetic.{alu};
ghost use Rattle.ia32_alu.specs.Product.{multiply, double_top};
ghost use Rattle.ia32_alu.specs.Quotient.{divide};
ghost use Rattle.ia32_alu.specs.Range.{TellsSum, TellsDifference};
ghost use Rattle.ia32_alu.specs.Division.{Divides, DividesSigned};
ghost use Rattle.ia32_alu.specs.Compare.{TellsCompared};

/// After ADD and ADC, CF and OF say exactly whether the unsigned and the signed sum are out of range.
pub fn sums_in_range()
    ensures add { (s : Size) (a b : ℕ) (f : Flags) → TellsSum s (low s a) (low s b) 0 (alu Add s a b f).0 (alu Add s a b f).1 }
    ensures with_carry { (s : Size) (a b : ℕ) (f : Flags) →
        TellsSum s (low s a) (low s b) (worth (bit f.bits CARRY_AT)) (alu Adc s a b f).0 (alu Adc s a b f).1 }
{}

/// After SUB and SBB, CF and OF say exactly whether the unsigned and the signed difference are out of range.
pub fn differences_in_range()
    ensures subtract { (s : Size) (a b : ℕ) (f : Flags) → TellsDifference s (low s a) (low s b) 0 (alu Sub s a b f).0 (alu Sub s a b f).1 }
    ensures with_borrow { (s : Size) (a b : ℕ) (f : Flags) →
        TellsDifference s (low s a) (low s b) (worth (bit f.bits CARRY_AT)) (alu Sbb s a b f).0 (alu Sbb s a b f).1 }
{}

/// DIV and IDIV: the dividend is the quotient times the divisor, and the remainder.
pub fn divisions()
    ensures unsigned { (s : Size) (high below by : ℕ) →
        IfSome (divide false s high below by) (λ q. Divides (low s high * span s + low s below) (low s by) q.0 q.1) }
    ensures signed { (s : Size) (high below by : ℕ) →
        IfSome (divide true s high below by) (λ q.
        DividesSigned (signed_at (double_top s) (low s high * span s + low s below)) (signed s (low s by)) (signed s q.0) (signed s q.1)) }
{}

/// DIV and IDIV give no quotient exactly where the divisor is 0, or the quotient, which IDIV rounds toward zero, does
/// not fit. For DIV that is where the upper half of the dividend is not below the divisor.
/// Intel SDM volume 2, DIV and IDIV.
pub fn divisions_refused()
    ensures unsigned { (s : Size) (high below by : ℕ) →
        is_some (divide false s high below by) ≡ (not (low s by == 0) && nat_lt ((low s high * span s + low s below) / low s by) (span s)) }
    ensures upper_half { (s : Size) (high below by : ℕ) → is_some (divide false s high below by) ≡ nat_lt (low s high) (low s by) }
    ensures signed { (s : Size) (high below by : ℕ) →
        is_some (divide true s high below by)
        ≡ (not (low s by == 0) && fits s (int_div (signed_at (double_top s) (low s high * span s + low s below)) (signed s (low s by)))) }
{}

/// DIV finds the quotient and the remainder wherever there is a quotient that fits.
pub fn quotients_found()
    ensures { (s : Size) (high below by q r : ℕ) → Divides (low s high * span s + low s below) (low s by) q r → q < span s →
        divide false s high below by ≡ Some (q, r) }
{}

/// The flags of CMP give the order of the operands, as unsigned and as signed numbers, and their difference's sign,
/// parity and range.
pub fn comparisons()
    ensures { (s : Size) (a b : ℕ) (f : Flags) → TellsCompared s (low s a) (low s b) (alu Cmp s a b f).1 }
{}

/// A product of MUL or IMUL, divided by its second factor, is the first, and nothing remains.
pub fn products_divided()
    ensures { (sign : Bool) (s : Size) (a b : ℕ) (f : Flags) → 0 < low s b →
        divide sign s ((multiply sign s a b f).0 / span s) ((multiply sign s a b f).0 % span s) b ≡ Some (low s a, 0) }
{}
