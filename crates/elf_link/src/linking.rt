//! The image that objects make.

ghost use Rattle.std.specs.Prelude.{◌≡◌, ◌+◌, ◌≤◌, ◌<◌, ◌^◌, ◌++◌, All, List, length, replicate, Ok, OnOk, IfOk};
ghost use Rattle.elf_form.specs.Writable.{IsWritableImage, HasLongs};
ghost use Rattle.elf_form.specs.Output.{pad};
ghost use Rattle.sites.specs.declared.site.Site.{Site as SiteView};
ghost use Rattle.elf_link.specs.Layout.{numbered, bases};
ghost use Rattle.elf_link.specs.Symbols.{globals as globals_of};
ghost use Rattle.elf_form.specs.Linkable.{IsLinkable};
ghost use Rattle.elf_link.specs.Relocations.{reloc_cause, with_fields};
ghost use Rattle.elf_form.specs.Tables.{first_some};
ghost use Rattle.elf_link.specs.Refusals.{refused, start, object_refusal, relocs_refusal};
ghost use Rattle.elf_link.specs.Steps.{IsWithin, totals, entered, tested};
ghost use Rattle.elf_link.specs.Linked.{padded, linked_text, linked_init, entry_at, image, linked_image};
ghost use Rattle.elf_link.specs.Answers.{file_of, Gives};
ghost use Rattle.elf_link.specs.Facts.{IsGathered, IsPlan, IsLaidOut};

use crate::fault::{LinkCause, LinkFault};
use crate::gathering::{gather_all, refuse};
use crate::globals::Globals;
use crate::layout::{bases, init_end, memory_end, text_end};
use crate::relocations::{Plan, address, is_text, relocs_cause, with_fields};
use elf_form::{Image, Object, pad, write_image};
use ia32_types::{DATA_ADDRESS, TEXT_ADDRESS};
use sites::{Site, of_text, write_sites};
use std::alloc::{AllocError, Global};

/// Adds bytes, and what fills them up to a multiple of `to`.
fn put_padded(out: &mut Vec<u8>, bytes: &[u8], to: usize, fill: u8) -> Result<(), AllocError>
    requires { (1 ≤ to) × (to ≤ 4096) }
    ensures { OnOk result (out.new.items ≡ out.old.items ++ padded to fill bytes.now) }
{
    out.extend_from_slice(bytes)?;
    for _i in 0..pad(to, bytes.len()) {
        out.push(fill)?;
    }
    Ok(())
}

/// Each text after the one before, with NOPs between them, and a jump to itself.
#[tactic(auto, unfolding(crate::specs::Linked::linked_text))]
fn linked_text(alloc: Global, objects: &Vec<Object>, plan: &Plan) -> Result<Vec<u8>, AllocError>
    requires few { length objects.now.items ≤ 64 }
    requires linkable { All IsLinkable objects.now.items }
    requires within { IsWithin (totals objects.now.items) }
    requires plan { IsPlan objects.now.items plan.now }
    ensures { IfOk result (λ v. v.items ≡ linked_text objects.now.items) }
{
    let mut out = Vec::new(alloc);
    for (i, object) in objects.iter().enumerate() {
        let text = with_fields(alloc, plan, i as u32, object, true)?;
        put_padded(&mut out, &text, 16, 0x90)?;
    }
    out.truncate(text_end(objects));
    out.extend_from_slice(&[0xEB, 0xFE])?;
    Ok(out)
}

/// Each data after the one before, with zeros between them.
#[tactic(auto, unfolding(crate::specs::Linked::linked_init))]
fn linked_init(alloc: Global, objects: &Vec<Object>, plan: &Plan) -> Result<Vec<u8>, AllocError>
    requires few { length objects.now.items ≤ 64 }
    requires linkable { All IsLinkable objects.now.items }
    requires within { IsWithin (totals objects.now.items) }
    requires plan { IsPlan objects.now.items plan.now }
    ensures { IfOk result (λ v. v.items ≡ linked_init objects.now.items) }
{
    let mut out = Vec::new(alloc);
    for (i, object) in objects.iter().enumerate() {
        let init = with_fields(alloc, plan, i as u32, object, false)?;
        put_padded(&mut out, &init, 4096, 0)?;
    }
    out.truncate(init_end(objects));
    Ok(out)
}

/// The relocations of each object tested in turn.
fn relocs_tested(alloc: Global, objects: &Vec<Object>, globals: &Globals) -> Result<(), LinkFault>
    requires few { length objects.now.items ≤ 64 }
    requires linkable { All IsLinkable objects.now.items }
    requires globals { globals.now ≡ globals_of objects.now.items }
    ensures { Gives (λ _. tt) result (tested (first_some (relocs_refusal objects.now.items) (numbered objects.now.items))) }
{
    for (i, object) in objects.iter().enumerate() {
        let cause = relocs_cause(alloc, globals, i as u32, object)?;
        refuse(i as u32, cause)?;
    }
    Ok(())
}

/// The linear address of `_start`, or of the text where no object defines that name.
#[tactic(auto, unfolding(crate::specs::Steps::entered))]
fn entered(plan: &Plan) -> Result<u32, LinkFault>
    ensures { Gives (λ entry. entry) result (entered plan.now.bases.items plan.now.globals) }
{
    match plan.globals.get(b"_start") {
        None => Ok(TEXT_ADDRESS),
        Some(target) => {
            if !is_text(target.place) {
                return Err(LinkFault::At {
                    object: target.object,
                    cause: LinkCause::NotText(target.value),
                });
            }
            Ok(address(&plan.bases, target))
        }
    }
}

/// The image of objects that passed every test, which is entered at `entry`.
fn placed(
    alloc: Global,
    objects: &Vec<Object>,
    plan: &Plan,
    sites: Vec<Site>,
    entry: u32,
) -> Result<Image, AllocError>
    requires few { length objects.now.items ≤ 64 }
    requires linkable { All IsLinkable objects.now.items }
    requires gathered { IsGathered objects.now.items sites.items }
    requires plan { IsPlan objects.now.items plan.now }
    requires entry { entry ≡ entry_at (bases objects.now.items) (start objects.now.items) }
    ensures image { IfOk result (λ placed. placed ≡ image objects.now.items) }
    ensures laid_out { IfOk result (λ image. IsLaidOut image) }
    ensures writable { IfOk result (λ image. IsWritableImage image) }
    ensures longs { IfOk result (λ image. HasLongs image) }
{
    let init_end = init_end(objects);
    let text = linked_text(alloc, objects, plan)?;
    let init = linked_init(alloc, objects, plan)?;
    let sites = of_text(sites, text.len());
    let sites = write_sites(alloc, &sites)?;
    Ok(Image {
        text,
        init,
        bss: (memory_end(objects) - init_end) as u32,
        entry,
        text_at: TEXT_ADDRESS,
        init_at: DATA_ADDRESS,
        sites,
    })
}

/// The image of objects that were gathered, or the first cause by which the rest refuses them.
fn linked_by(
    alloc: Global,
    objects: &Vec<Object>,
    plan: &Plan,
    sites: Vec<Site>,
) -> Result<Image, LinkFault>
    requires few { length objects.now.items ≤ 64 }
    requires linkable { All IsLinkable objects.now.items }
    requires passed { tested (first_some (object_refusal objects.now.items) (numbered objects.now.items)) ≡ Ok tt }
    requires gathered { IsGathered objects.now.items sites.items }
    requires plan { IsPlan objects.now.items plan.now }
    ensures exact { Gives (λ image. image) result (linked_image objects.now.items) }
    ensures laid_out { IfOk result (λ image. IsLaidOut image) }
    ensures writable { IfOk result (λ image. IsWritableImage image) }
    ensures longs { IfOk result (λ image. HasLongs image) }
{
    relocs_tested(alloc, objects, &plan.globals)?;
    let entry = entered(plan)?;
    Ok(placed(alloc, objects, plan, sites, entry)?)
}

/// The image that objects make, or the first cause by which they are refused.
pub fn linked(alloc: Global, objects: &Vec<Object>) -> Result<Image, LinkFault>
    requires few { length objects.now.items ≤ 64 }
    requires linkable { All IsLinkable objects.now.items }
    ensures exact { Gives (λ image. image) result (linked_image objects.now.items) }
    // Its places, sizes, entry and sites.
    ensures laid_out { IfOk result (λ image. IsLaidOut image) }
    ensures writable { IfOk result (λ image. IsWritableImage image) }
    ensures longs { IfOk result (λ image. HasLongs image) }
{
    let all = gather_all(alloc, objects)?;
    let plan = Plan {
        bases: bases(alloc, objects)?,
        globals: all.globals,
    };
    linked_by(alloc, objects, &plan, all.sites)
}

/// The file of the image that objects make, or the first cause by which they are refused.
pub fn link(alloc: Global, objects: &Vec<Object>) -> Result<Vec<u8>, LinkFault>
    requires few { length objects.now.items ≤ 64 }
    requires linkable { All IsLinkable objects.now.items }
    ensures exact { Gives (λ v. v.items) result (file_of (linked_image objects.now.items)) }
{
    let image = linked(alloc, objects)?;
    Ok(write_image(alloc, &image)?)
}
