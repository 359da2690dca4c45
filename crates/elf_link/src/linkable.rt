//! Which objects can be linked.

ghost use Rattle.std.specs.Prelude.{◌+◌, ◌≤◌, ◌<◌, All, IsTrue, length, if◌then◌else◌};
ghost use Rattle.elf_form.specs.Linkable.{IsLinkable};

use elf_form::{Object, Reloc};

/// Whether a relocation names a symbol of the object and has its field in its part.
fn fits(object: &Object, r: Reloc) -> bool
    ensures symbol { IsTrue result → r.symbol < length object.now.symbols }
    ensures field { IsTrue result → r.at + 4 ≤ (if r.in_text then length object.now.text else length object.now.init) }
    ensures only { r.symbol < length object.now.symbols
        → r.at + 4 ≤ (if r.in_text then length object.now.text else length object.now.init) → IsTrue result }
{
    let part = if r.in_text {
        object.text.len()
    } else {
        object.init.len()
    };
    (r.symbol as usize) < object.symbols.len() && r.at as usize + 4 <= part
}

/// Whether all relocations of an object fit, and there are fewer than 2^32 bytes of annotations.
fn is_linkable(object: &Object) -> bool
    ensures sound { IsTrue result → IsLinkable object.now }
    ensures only { IsLinkable object.now → IsTrue result }
{
    for r in &object.relocs {
        if !fits(object, *r) {
            return false;
        }
    }
    object.sites.len() < 0x1_0000_0000
}

/// Whether objects can be linked: each relocation names a symbol of its object and has its field
/// in its part, and annotations are shorter than 2^32 bytes.
pub fn are_linkable(objects: &Vec<Object>) -> bool
    ensures sound { IsTrue result → All IsLinkable objects.now.items }
    ensures only { All IsLinkable objects.now.items → IsTrue result }
{
    for object in objects {
        if !is_linkable(object) {
            return false;
        }
    }
    true
}
