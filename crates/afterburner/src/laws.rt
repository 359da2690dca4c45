//! What the relocations of an object name, and which cause is reported of an item.

ghost use Rattle.std.specs.Prelude.{◌≡◌, ℕ, List, length, slice_get, Some, Ok, Err};
ghost use Rattle.asm_source.specs.declared.tree.Body.{Body as BodyView};
ghost use Rattle.asm_source.specs.declared.tree.SourceItem.{SourceItem as ItemView};
ghost use Rattle.asm_source.specs.Names.{names_in};
ghost use Rattle.afterburner.specs.declared.fault.BurnCause.{BurnCause as CauseView};
ghost use Rattle.afterburner.specs.declared.symbol.Definition.{Definition as DefinitionView};
ghost use Rattle.afterburner.specs.Burnt.{item_made};
ghost use Rattle.afterburner.specs.ObjectSoFar.{ObjectSoFar, fresh};
ghost use Rattle.afterburner.specs.Reasons.{IsReason, IsLowestReason};
ghost use Rattle.afterburner.specs.Refused.{IsFirstRefused};
ghost use Rattle.afterburner.specs.Symbols.{definition_of};
ghost use Rattle.afterburner.specs.Objects.{symbol, symbols_seen, ordered, ordered_number};

/// A relocation names the symbol of its argument: in the order of an object's symbols, local ones
/// first, the symbol of the name that was seen as number k has the number that its relocations get.
pub fn relocations_name_their_symbols()
    ensures { (names : List (List ℕ)) (ds : List DefinitionView) (k : ℕ) (name : List ℕ) → length names ≡ length ds
        → slice_get names k ≡ Some name → slice_get (ordered (symbols_seen names ds)) (ordered_number ds k)
        ≡ Some (symbol name (definition_of ds k)) }
{}

/// Of the causes whose conditions hold of an item the lowest is reported, and an item of which none
/// holds is made.
pub fn lowest_cause_is_told()
    ensures told { (names : List (List ℕ)) (so_far : ObjectSoFar) (body : BodyView) (cause : CauseView)
        → item_made names so_far body ≡ Err cause → IsLowestReason names so_far body cause }
    ensures only { (names : List (List ℕ)) (so_far : ObjectSoFar) (body : BodyView) (cause : CauseView)
        → IsLowestReason names so_far body cause → item_made names so_far body ≡ Err cause }
    ensures made { (names : List (List ℕ)) (so_far made : ObjectSoFar) (body : BodyView) (cause : CauseView)
        → item_made names so_far body ≡ Ok made → IsReason names so_far body cause → ⊥ }
{}

/// Items have one line and one cause alone with which one of them is refused first.
pub fn one_refusal_comes_first()
    ensures { (items : List ItemView) (line other : ℕ) (cause second : CauseView)
        → IsFirstRefused (names_in items) (fresh (names_in items)) items line cause
        → IsFirstRefused (names_in items) (fresh (names_in items)) items other second → (line ≡ other)
        × (cause ≡ second) }
{}
