//! What linking is, in words that name no order of work.

ghost use Rattle.std.specs.Prelude.{◌≡◌, ◌+◌, ◌≤◌, ◌<◌, ◌++◌, ℕ, take, true, false, not, ◌&&◌, List, All, length, slice_get, slice_index, sum_by, Some, None, Ok, Err, if◌then◌else◌};
ghost use Rattle.std.specs.Str.{bytes_eq};
ghost use Rattle.elf_form.specs.ObjectParts.{ObjectParts};
ghost use Rattle.elf_form.specs.declared.object.Symbol.{Symbol as SymbolView};
ghost use Rattle.elf_form.specs.declared.object.Reloc.{Reloc as RelocView};
ghost use Rattle.elf_link.specs.declared.target.Target.{Target as TargetView};
ghost use Rattle.elf_link.specs.declared.fault.LinkCause.{LinkCause as CauseView};
ghost use Rattle.elf_link.specs.declared.fault.LinkCause.TheVariants.{NoSymbol, NotText, TextTooLarge, InitTooLarge, TooManySymbols, SitesForm};
ghost use Rattle.sites.specs.declared.limits.TheConstants.{INIT_LIMIT, SITE_LIMIT, TEXT_LIMIT};
ghost use Rattle.elf_form.specs.declared.object.TheConstants.{SYMBOL_LIMIT};
ghost use Rattle.sites.specs.declared.site.Site.{Site as SiteView};
ghost use Rattle.sites.specs.SitesParts.{SitesParts as SitesView};
ghost use Rattle.sites.specs.Formats.{sites_in};
ghost use Rattle.elf_link.specs.Layout.{text_at, init_at, bss_at, bases, numbered, text_end, memory_end};
ghost use Rattle.elf_link.specs.Sites.{sites_of, sites_wrong, crowded};
ghost use Rattle.elf_link.specs.Order.{IsFirstRefused, IsFirstCause, up_to, symbol_count, TextFits, MemoryFits, SymbolsFit, AreInText};
ghost use Rattle.elf_link.specs.Symbols.{is_text, is_exported, target, lookup, target_of, globals};
ghost use Rattle.elf_form.specs.Linkable.{IsLinkable};
ghost use Rattle.elf_link.specs.Relocations.{reloc_cause, with_fields};
ghost use Rattle.elf_form.specs.Tables.{first_some};
ghost use Rattle.elf_link.specs.Refusals.{Refused, first_doubled, holds, object_cause, object_refusal, relocs_refusal, start, refusal, doubled, doubled_cause};
ghost use Rattle.elf_link.specs.Doubled.{IsFirstDoubled};
ghost use Rattle.elf_link.specs.Linked.{linked_text, linked_init};

/// No two objects' parts overlap, and all zeroed bytes stand after all data.
pub fn parts_apart()
    ensures text { (os : List ObjectParts) (i j : ℕ) (o : ObjectParts) → slice_get os i ≡ Some o → i < j
        → text_at os i + length o.text ≤ text_at os j }
    ensures init { (os : List ObjectParts) (i j : ℕ) (o : ObjectParts) → slice_get os i ≡ Some o → i < j
        → init_at os i + length o.init ≤ init_at os j }
    ensures bss { (os : List ObjectParts) (i j : ℕ) (o : ObjectParts) → slice_get os i ≡ Some o → i < j
        → bss_at os i + o.bss ≤ bss_at os j }
    ensures behind { (os : List ObjectParts) (i j : ℕ) (o : ObjectParts) → slice_get os i ≡ Some o
        → init_at os i + length o.init ≤ bss_at os j }
{}

/// The text and the data of each object stand at their places in the image, with their fields
/// filled.
pub fn parts_stand()
    ensures text { (os : List ObjectParts) (i k : ℕ) (o : ObjectParts) → All IsLinkable os → slice_get os i ≡ Some o
        → k < length o.text → slice_index (linked_text os) (text_at os i + k)
        ≡ slice_index (with_fields (bases os) (globals os) (i, o) true) k }
    ensures init { (os : List ObjectParts) (i k : ℕ) (o : ObjectParts) → All IsLinkable os → slice_get os i ≡ Some o
        → k < length o.init → slice_index (linked_init os) (init_at os i + k)
        ≡ slice_index (with_fields (bases os) (globals os) (i, o) false) k }
{}

/// A name stands for nothing exactly where no object has a global symbol of that name that it
/// defines.
pub fn names_found()
    ensures nowhere { (os : List ObjectParts) (name : List ℕ) → lookup name (globals os) ≡ None
        → (j k : ℕ) (o : ObjectParts) (s : SymbolView) → slice_get os j ≡ Some o → slice_get o.symbols k ≡ Some s
        → is_exported s ≡ true → bytes_eq name s.name ≡ false }
    ensures found { (os : List ObjectParts) (name : List ℕ) (t : TargetView) → lookup name (globals os) ≡ Some t
        → (k : ℕ) × (o : ObjectParts) × (s : SymbolView) × (slice_get os t.object ≡ Some o)
        × (slice_get o.symbols k ≡ Some s) × (is_exported s ≡ true) × (bytes_eq name s.name ≡ true)
        × (t ≡ target t.object s) }
{}

/// A relocation is refused for its symbol exactly where that stands for nothing, and else for its
/// place exactly where it is a relative field in text whose symbol isn't in text.
pub fn relocations_refused()
    ensures no_symbol { (gs : List (List ℕ × TargetView)) (i : ℕ) (o : ObjectParts) (r : RelocView) (s : SymbolView)
        → slice_get o.symbols r.symbol ≡ Some s → target_of gs i s ≡ None
        → reloc_cause gs (i, o) r ≡ Some (NoSymbol s.name) }
    ensures not_text { (gs : List (List ℕ × TargetView)) (i : ℕ) (o : ObjectParts) (r : RelocView) (s : SymbolView)
        (t : TargetView) → slice_get o.symbols r.symbol ≡ Some s → target_of gs i s ≡ Some t
        → reloc_cause gs (i, o) r
        ≡ (if r.in_text && r.relative && not (is_text t.place) then Some (NotText r.at) else None) }
{}

/// A name is reported as defined twice exactly where it was defined before: it is the first of an
/// object's names that an object before it, or an earlier symbol of its own, defines too.
pub fn names_doubled()
    ensures found { (others names : List (List ℕ)) (name : List ℕ) → first_doubled others names ≡ Some name
        → IsFirstDoubled others names name }
    ensures none { (others names : List (List ℕ)) → first_doubled others names ≡ None → (k : ℕ) (name : List ℕ)
        → slice_get names k ≡ Some name → holds (others ++ take k names) name ≡ false }
{}

/// Each object is tested by itself, the first that is refused is reported, and none before it is
/// refused by any cause.
pub fn objects_in_order()
    ensures found { (os : List ObjectParts) (r : Refused) → first_some (object_refusal os) (numbered os) ≡ Some r
        → IsFirstRefused (object_cause os) os r }
    ensures none { (os : List ObjectParts) → first_some (object_refusal os) (numbered os) ≡ None
        → (i : ℕ) (o : ObjectParts) → slice_get os i ≡ Some o → object_cause os (i, o) ≡ None }
{}

/// What an object is refused for, in this order, over the objects up to and with it, laid out by
/// themselves: their text with its last jump is above its limit; their data and zeroed bytes are;
/// they have too many symbols; the object's sites are wrong; it defines a name again.
pub fn causes_in_order()
    ensures text { (os : List ObjectParts) (p : ℕ × ObjectParts) → TEXT_LIMIT < text_end (up_to os p) + 2
        → object_cause os p ≡ Some TextTooLarge }
    ensures init { (os : List ObjectParts) (p : ℕ × ObjectParts) → TextFits os p
        → INIT_LIMIT < memory_end (up_to os p) → object_cause os p ≡ Some InitTooLarge }
    ensures symbols { (os : List ObjectParts) (p : ℕ × ObjectParts) → TextFits os p → MemoryFits os p
        → SYMBOL_LIMIT < symbol_count (up_to os p) → object_cause os p ≡ Some TooManySymbols }
    ensures sites { (os : List ObjectParts) (p : ℕ × ObjectParts) → TextFits os p → MemoryFits os p
        → SymbolsFit os p → sites_wrong os p ≡ true → object_cause os p ≡ Some SitesForm }
    ensures names { (os : List ObjectParts) (p : ℕ × ObjectParts) → TextFits os p → MemoryFits os p
        → SymbolsFit os p → sites_wrong os p ≡ false → object_cause os p ≡ doubled_cause (doubled os p) }
{}

/// An object's sites are wrong exactly where their section is malformed, one of them ends past
/// the text, there are more than 262,144 in the objects up to and with this one, or a long text's
/// sites can't be written by the gaps between them.
pub fn sites_refused()
    ensures malformed { (os : List ObjectParts) (p : ℕ × ObjectParts) (at : ℕ) → sites_in p.1.sites ≡ Err at → sites_wrong os p ≡ true }
    ensures past_text { (os : List ObjectParts) (p : ℕ × ObjectParts) (sites : SitesView) (k : ℕ) (s : SiteView)
        → sites_in p.1.sites ≡ Ok sites → slice_get sites.list k ≡ Some s → length p.1.text < s.at + s.total
        → sites_wrong os p ≡ true }
    ensures too_many { (os : List ObjectParts) (p : ℕ × ObjectParts)
        → SITE_LIMIT < sum_by (λ o. length (sites_of o)) (up_to os p) → sites_wrong os p ≡ true }
    ensures crowded { (os : List ObjectParts) (p : ℕ × ObjectParts) → crowded os (p.0 + 1) ≡ true → sites_wrong os p ≡ true }
    ensures right { (os : List ObjectParts) (p : ℕ × ObjectParts) (sites : SitesView)
        → sites_in p.1.sites ≡ Ok sites → AreInText p.1 sites.list
        → sum_by (λ o. length (sites_of o)) (up_to os p) ≤ SITE_LIMIT → crowded os (p.0 + 1) ≡ false
        → sites_wrong os p ≡ false }
{}

/// The first object with a relocation that is refused is reported, with the cause of the first of
/// its relocations that is; none before it is refused.
pub fn relocations_in_order()
    ensures object { (os : List ObjectParts) (r : Refused) → first_some (relocs_refusal os) (numbered os) ≡ Some r
        → IsFirstRefused (λ p. first_some (reloc_cause (globals os) p) p.1.relocs) os r }
    ensures relocation { (os : List ObjectParts) (p : ℕ × ObjectParts) (cause : CauseView)
        → first_some (reloc_cause (globals os) p) p.1.relocs ≡ Some cause
        → IsFirstCause (reloc_cause (globals os) p) p.1.relocs cause }
    ensures none { (os : List ObjectParts) → first_some (relocs_refusal os) (numbered os) ≡ None
        → (i k : ℕ) (o : ObjectParts) (r : RelocView) → slice_get os i ≡ Some o → slice_get o.relocs k ≡ Some r
        → reloc_cause (globals os) (i, o) r ≡ None }
{}

/// All objects are tested before any relocation, and all relocations before the entry: `_start`
/// is refused exactly where it is defined outside text.
pub fn stages_in_order()
    ensures objects { (os : List ObjectParts) (r : Refused) → first_some (object_refusal os) (numbered os) ≡ Some r → refusal os ≡ Some r }
    ensures relocations { (os : List ObjectParts) (r : Refused)
        → first_some (object_refusal os) (numbered os) ≡ None
        → first_some (relocs_refusal os) (numbered os) ≡ Some r → refusal os ≡ Some r }
    ensures no_start { (os : List ObjectParts) → first_some (object_refusal os) (numbered os) ≡ None
        → first_some (relocs_refusal os) (numbered os) ≡ None → start os ≡ None → refusal os ≡ None }
    ensures start_in_text { (os : List ObjectParts) (t : TargetView)
        → first_some (object_refusal os) (numbered os) ≡ None → first_some (relocs_refusal os) (numbered os) ≡ None
        → start os ≡ Some t → is_text t.place ≡ true → refusal os ≡ None }
    ensures start_elsewhere { (os : List ObjectParts) (t : TargetView)
        → first_some (object_refusal os) (numbered os) ≡ None → first_some (relocs_refusal os) (numbered os) ≡ None
        → start os ≡ Some t → is_text t.place ≡ false
        → refusal os ≡ Some (record { object = t.object; cause = NotText t.value }) }
{}
