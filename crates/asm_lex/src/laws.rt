//! What every text has.

ghost use Rattle.std.specs.Prelude.{◌≡◌, List, ℕ};
ghost use Rattle.asm_lex.specs.declared.token.Token.{Token as TokenView};
ghost use Rattle.asm_lex.specs.declared.fault.SourceCause.{SourceCause as CauseView};
ghost use Rattle.asm_lex.specs.declared.fault.SourceCause.TheVariants.{OpenComment};
ghost use Rattle.asm_lex.specs.Lines.{HasTokens, IsFirstDead};
ghost use Rattle.asm_lex.specs.Refused.{IsRefused};
ghost use Rattle.asm_lex.specs.Tokens.{AreTokens};

/// The words of a refusal fit a text with one line and one cause alone.
pub fn one_refusal_fits()
    ensures { (text : List ℕ) (line other : ℕ) (cause second : CauseView) → IsRefused text line cause →
        IsRefused text other second → (line ≡ other) × (cause ≡ second) }
{}

/// What is refused in these words has no tokens.
pub fn refused_has_no_tokens()
    ensures { (text : List ℕ) (line : ℕ) (cause : CauseView) (tokens : List TokenView) → IsRefused text line cause →
        AreTokens text tokens → ⊥ }
{}

/// What has no tokens is refused in some line for some cause.
pub fn no_tokens_are_refused()
    ensures { (text : List ℕ) → (HasTokens text → ⊥) → (line : ℕ) × (cause : CauseView) × IsRefused text line cause }
{}

/// A text has one line alone that is the first from which no text that has tokens goes on.
pub fn one_line_is_first_dead()
    ensures { (text : List ℕ) (line other : ℕ) → IsFirstDead text line → IsFirstDead text other → line ≡ other }
{}

/// The line of what is wrong first is that line, but for a comment that doesn't end.
pub fn refused_line_is_first_dead()
    ensures { (text : List ℕ) (line : ℕ) (cause : CauseView) → IsRefused text line cause →
        (cause ≡ OpenComment → ⊥) → IsFirstDead text line }
{}
