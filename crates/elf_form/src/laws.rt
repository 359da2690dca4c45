//! How long a written file is, and what the causes of a refusal stand for.

ghost use Rattle.std.specs.Prelude.{◌≡◌, ◌↔◌, ◌≤◌, ◌+◌, ◌*◌, ℕ, List, length, Some, None};
ghost use Rattle.std.specs.List.{sum_by};
ghost use Rattle.elf_form.specs.declared.abi.TheConstants.{EHDR_SIZE, SYM_SIZE, REL_SIZE};
ghost use Rattle.elf_form.specs.ObjectParts.{ObjectParts};
ghost use Rattle.elf_form.specs.ObjectLayout.{layout, object_bytes};
ghost use Rattle.elf_form.specs.Reading.{image_in, wrong_image};
ghost use Rattle.elf_form.specs.ObjectReading.{object_in, wrong_object};
ghost use Rattle.elf_form.specs.Order.{HasPlace};
ghost use Rattle.elf_form.specs.Reasons.{IsBadObject, IsBadImage, IsRefusedObject, IsRefusedImage, no_object, no_image};
ghost use Rattle.elf_form.specs.declared.cause.ElfCause.{ElfCause};

/// How long the file of an object is: at most the header, the parts, the names with their zero
/// bytes, those of the sections, up to 40 bytes that align, and then the section headers.
pub fn object_length()
    ensures exact { (o : ObjectParts) → length (object_bytes o) ≡ (layout o).sections + 400 }
    ensures bound { (o : ObjectParts) → (layout o).sections
        ≤ EHDR_SIZE + length o.text + length o.init + length o.sites + REL_SIZE * length o.relocs + SYM_SIZE * (length o.symbols + 1)
        + (sum_by (λ s. length s.name) o.symbols + length o.symbols + 1) + 74 + 40 }
{}

/// A file is wrong as an object by a cause, at a place, exactly where the condition of that cause
/// has its lowest place there, or, of the parts that pass the end, the first begins there. It is
/// not wrong by it exactly where the condition holds at no place.
pub fn object_causes_are_conditions()
    ensures exact { (bytes : List ℕ) (cause : ElfCause) (at : ℕ) → (wrong_object bytes cause ≡ Some at)
        ↔ HasPlace (IsBadObject bytes) bytes cause at }
    ensures none { (bytes : List ℕ) (cause : ElfCause) → (wrong_object bytes cause ≡ None)
        ↔ ((at : ℕ) → IsBadObject bytes cause at → ⊥) }
{}

/// A file is wrong as an image by a cause, at a place, exactly where the condition of that cause
/// has its lowest place there, or, of the parts that pass the end, the first begins there. It is
/// not wrong by it exactly where the condition holds at no place.
pub fn image_causes_are_conditions()
    ensures exact { (bytes : List ℕ) (cause : ElfCause) (at : ℕ) → (wrong_image bytes cause ≡ Some at)
        ↔ HasPlace (IsBadImage bytes) bytes cause at }
    ensures none { (bytes : List ℕ) (cause : ElfCause) → (wrong_image bytes cause ≡ None)
        ↔ ((at : ℕ) → IsBadImage bytes cause at → ⊥) }
{}

/// A file is refused as an object, by a cause and at a place, exactly where the cause has this
/// place and the condition of none that comes before it holds at any.
pub fn objects_refused_in_order()
    ensures { (bytes : List ℕ) (at : ℕ) (cause : ElfCause) → (object_in bytes ≡ no_object at cause)
        ↔ IsRefusedObject bytes at cause }
{}

/// A file is refused as an image, by a cause and at a place, exactly where the cause has this
/// place and the condition of none that comes before it holds at any.
pub fn images_refused_in_order()
    ensures { (bytes : List ℕ) (at : ℕ) (cause : ElfCause) → (image_in bytes ≡ no_image at cause)
        ↔ IsRefusedImage bytes at cause }
{}
