//! Objects, read from files, and made as files.

ghost use Rattle.std.specs.Prelude.{◌≡◌, ◌≤◌, ℕ, All, IfOk, IfErr, OnOk, length, map, string_bytes};
ghost use Rattle.pv_io.specs.Files.{IsHeld};
ghost use Rattle.elf_form.specs.Faults.{Fault};
ghost use Rattle.elf_form.specs.ObjectLayout.{object_bytes};
ghost use Rattle.elf_form.specs.Writable.{IsWholeObject};
ghost use Rattle.elf_form.specs.Linkable.{IsLinkable};
ghost use Rattle.pv_build.specs.Lines.{form_number, object_place_line};
ghost use Rattle.pv_build.specs.Readings.{OnlyRead};
ghost use Rattle.pv_build.specs.Failures.{NoneFailedIn};
ghost use Rattle.pv_build.specs.Telling.{HaltsOverFiles};
ghost use Rattle.pv_build.specs.Objects.{HasObject, HasNoObject, HasObjects, FindsObjects, FirstFault, ReadsBack, object_made_line};

use crate::halt::Halt;
use crate::lines::{Sizes, number_of_form, object_place_line, sizes_line};
use crate::made::Made;
use crate::telling::{load, refused};
use elf_form::{ElfFault, Object, read_object, write_object};
use pv_io::Files;
use sites::count;
use std::alloc::{AllocError, Global};

/// The objects that files hold, at most 64, each read before the next is loaded.
#[tactic(auto, using(crate::proofs::Failures::none_here, crate::proofs::Failures::none_since, crate::proofs::Failures::none_in))]
pub fn objects_in<F: Files>(
    alloc: Global,
    names: &[String],
    files: &mut F,
) -> Result<Vec<Object>, Halt>
    requires { length names.now ≤ 64 }
    ensures objects { IfOk result (λ os. HasObjects (F.held files.old) (map string_bytes names.now) os.items) }
    ensures few { IfOk result (λ os. length os.items ≤ 64) }
    ensures linkable { IfOk result (λ os. All IsLinkable os.items) }
    ensures halted { IfErr result (HaltsOverFiles F.Files
        (FindsObjects (F.held files.old) (map string_bytes names.now)) files.old files.new
        (λ line. (i : ℕ) × (fault : Fault) × FirstFault (F.held files.old) (map string_bytes names.now) i fault
        × (line ≡ object_place_line (form_number fault.cause) i fault.at))) }
    ensures read { OnlyRead F.Files (FindsObjects (F.held files.old) (map string_bytes names.now)) files.old files.new }
    ensures kept { NoneFailedIn F.Files files.old files.new result }
{
    let mut objects = Vec::new(alloc);
    for (i, name) in names.iter().enumerate() {
        let object = object_in(alloc, i as u32, name.as_str(), files)?;
        objects.push(object)?;
    }
    Ok(objects)
}

// The object that a file holds; `index` counts the objects from 0.
#[tactic(auto, using(crate::proofs::Failures::none_here, crate::proofs::Failures::none_since, crate::proofs::Failures::none_in))]
fn object_in<F: Files>(alloc: Global, index: u32, name: &str, files: &mut F) -> Result<Object, Halt>
    ensures object { IfOk result (λ o. HasObject (F.held files.old) name.now o) }
    ensures linkable { IfOk result (λ o. IsLinkable o) }
    ensures halted { IfErr result (HaltsOverFiles F.Files (IsHeld (F.held files.old) name.now) files.old files.new
        (λ line. (fault : Fault) × HasNoObject (F.held files.old) name.now fault
        × (line ≡ object_place_line (form_number fault.cause) index fault.at))) }
    ensures read { OnlyRead F.Files (IsHeld (F.held files.old) name.now) files.old files.new }
    ensures kept { NoneFailedIn F.Files files.old files.new result }
{
    let file = load(alloc, name, files)?;
    match read_object(alloc, &file) {
        Ok(object) => Ok(object),
        Err(ElfFault::Memory) => Err(Halt::Memory),
        Err(ElfFault::At { at, cause }) => {
            let number = number_of_form(cause);
            Err(refused(object_place_line(alloc, number, index, at)))
        }
    }
}

/// An object as a file, and its line.
pub fn object_file(alloc: Global, object: &Object) -> Result<Made, AllocError>
    requires { IsWholeObject object.now }
    ensures file { IfOk result (λ m. m.file.items ≡ object_bytes object.now) }
    ensures line { IfOk result (λ m. m.line ≡ object_made_line object.now) }
    ensures read_back { OnOk result (ReadsBack object.now) }
{
    let file = write_object(alloc, object)?;
    let sizes = Sizes {
        text: object.text.len(),
        init: object.init.len(),
        bss: object.bss,
        sites: count(&object.sites) as usize,
    };
    let line = sizes_line(alloc, "object", sizes, "")?;
    Ok(Made { file, line })
}
