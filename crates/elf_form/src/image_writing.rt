//! Writing an image.

ghost use Rattle.std.specs.Prelude.{◌≡◌, [], ◌∷◌, ◌<◌, ◌≤◌, ◌+◌, ◌^◌, ◌++◌, ◌*◌, length, replicate, Ok, OnOk, IfOk};
ghost use Rattle.elf_form.specs.declared.segments.TheConstants.{FILE_LIMIT};
ghost use Rattle.elf_form.specs.Output.{halves, longs, pad};
ghost use Rattle.elf_form.specs.ImageLayout.{init_from, sites_from, names_from, sections_from, header, program_numbers, section_numbers, body, image_bytes, section_names};
ghost use Rattle.elf_form.specs.Writable.{IsWritableImage};
ghost use Rattle.elf_form.specs.Reading.{image_in};

use crate::abi::{
    EHDR_SIZE, EM_386, ET_EXEC, EV_CURRENT, PF_R, PF_W, PF_X, PHDR_SIZE, PT_LOAD, SHDR_SIZE,
};
use crate::image::Image;
use crate::output::{IDENTITY, pad, put_halves, put_longs, put_padded, put_zeros};
use crate::section_header::{
    DATA_SECTION, NO_SECTION, SITES_SECTION, TEXT_SECTION, bss_section, names_section, put_headers,
};
use std::alloc::{AllocError, Global};

const NAMES: [u8; 38] = *b"\0.text\0.data\0.bss\0.pv_sites\0.shstrtab\0";

#[tactic(auto, unfolding(crate::specs::ImageLayout::init_from), using(crate::proofs::FileWords::numbers))]
fn init_from(image: &Image) -> usize
    requires { IsWritableImage image.now }
    ensures { result ≡ init_from image.now }
{
    let end = 4096 + image.text.len();
    end + pad(4096, end)
}

#[tactic(auto, unfolding(crate::specs::ImageLayout::sites_from), using(crate::proofs::FileWords::numbers))]
fn sites_from(image: &Image) -> usize
    requires { IsWritableImage image.now }
    ensures { result ≡ sites_from image.now }
{
    let end = init_from(image) + image.init.len();
    end + pad(4, end)
}

#[tactic(auto, unfolding(crate::specs::ImageLayout::names_from), using(crate::proofs::FileWords::numbers))]
fn names_from(image: &Image) -> usize
    requires { IsWritableImage image.now }
    ensures { result ≡ names_from image.now }
{
    sites_from(image) + image.sites.len()
}

#[tactic(auto, unfolding(crate::specs::ImageLayout::sections_from), using(crate::proofs::FileWords::numbers))]
fn sections_from(image: &Image) -> usize
    requires { IsWritableImage image.now }
    ensures { result ≡ sections_from image.now }
{
    let end = names_from(image) + NAMES.len();
    end + pad(4, end)
}

/// The longs of the header: the version, where the image begins, its program headers and its
/// section headers, and the flags.
fn header_numbers(entry: u32, sections: u32) -> [u32; 5]
    ensures numbers { result ≡ 1 ∷ entry ∷ EHDR_SIZE ∷ sections ∷ 0 ∷ [] }
    ensures small { entry < 2 ^ 32 }
{
    [EV_CURRENT, entry, EHDR_SIZE as u32, sections, 0]
}

/// The two program headers. The fields of each: type, offset, address (twice), bytes, memory,
/// flags, alignment.
fn program_numbers(
    text_at: u32,
    text: u32,
    from: u32,
    init_at: u32,
    init: u32,
    memory: u32,
) -> [u32; 16]
    ensures numbers { result ≡ 1 ∷ 4096 ∷ text_at ∷ text_at ∷ text ∷ text ∷ 5 ∷ 4096
        ∷ 1 ∷ from ∷ init_at ∷ init_at ∷ init ∷ memory ∷ 6 ∷ 4096 ∷ [] }
    ensures text_small { text_at < 2 ^ 32 }
    ensures init_small { init_at < 2 ^ 32 }
{
    [
        PT_LOAD,
        4096,
        text_at,
        text_at,
        text,
        text,
        PF_R + PF_X,
        4096,
        PT_LOAD,
        from,
        init_at,
        init_at,
        init,
        memory,
        PF_R + PF_W,
        4096,
    ]
}

#[tactic(auto, unfolding(crate::specs::ImageLayout::header))]
fn put_header(out: &mut Vec<u8>, image: &Image) -> Result<(), AllocError>
    requires { IsWritableImage image.now }
    ensures bytes { OnOk result (out.new.items ≡ out.old.items ++ header image.now) }
    ensures entry { OnOk result (image.now.entry < 2 ^ 32) }
{
    out.extend_from_slice(&IDENTITY)?;
    put_halves(out, &[ET_EXEC, EM_386])?;
    let sections = sections_from(image) as u32;
    put_longs(out, &header_numbers(image.entry, sections))?;
    let sizes = [
        EHDR_SIZE as u16,
        PHDR_SIZE as u16,
        2,
        SHDR_SIZE as u16,
        6,
        5,
    ];
    put_halves(out, &sizes)?;
    Ok(())
}

#[tactic(auto, using(crate::proofs::FileWords::numbers))]
fn put_programs(out: &mut Vec<u8>, image: &Image) -> Result<(), AllocError>
    requires { IsWritableImage image.now }
    ensures bytes { OnOk result (out.new.items ≡ out.old.items ++ longs (program_numbers image.now)) }
    ensures text_at { image.now.text_at < 2 ^ 32 }
    ensures init_at { image.now.init_at < 2 ^ 32 }
{
    let (text, init) = (image.text.len() as u32, image.init.len() as u32);
    let from = init_from(image) as u32;
    let memory = init + image.bss;
    let numbers = program_numbers(image.text_at, text, from, image.init_at, init, memory);
    put_longs(out, &numbers)
}

#[tactic(auto, using(crate::proofs::FileWords::numbers))]
fn put_sections(out: &mut Vec<u8>, image: &Image) -> Result<(), AllocError>
    requires { IsWritableImage image.now }
    ensures { OnOk result (out.new.items ≡ out.old.items ++ longs (section_numbers image.now)) }
{
    let (text, init) = (image.text.len() as u32, image.init.len() as u32);
    let sites = image.sites.len() as u32;
    let init_at = init_from(image) as u32;
    let sites_at = sites_from(image) as u32;
    let names_at = names_from(image) as u32;
    let bss_at = image.init_at.wrapping_add(init);
    let headers = [
        NO_SECTION,
        TEXT_SECTION.at(image.text_at, 4096, text),
        DATA_SECTION.at(image.init_at, init_at, init),
        bss_section(1).at(bss_at, 0, image.bss),
        SITES_SECTION.at(0, sites_at, sites),
        names_section(28).at(0, names_at, NAMES.len() as u32),
    ];
    put_headers(out, &headers)
}

#[tactic(auto, unfolding(crate::specs::ImageLayout::body), using(crate::proofs::FileWords::numbers))]
fn put_body(out: &mut Vec<u8>, image: &Image) -> Result<(), AllocError>
    requires { IsWritableImage image.now }
    ensures { OnOk result (out.new.items ≡ out.old.items ++ body image.now) }
{
    put_padded(out, 4096, 4096, &image.text)?;
    put_padded(out, 4, init_from(image), &image.init)?;
    out.extend_from_slice(&image.sites)?;
    put_padded(out, 4, names_from(image), &NAMES)
}

/// The one layout of an image. A file of at most `FILE_LIMIT` bytes is read as the same image.
#[tactic(auto, unfolding(crate::specs::ImageLayout::image_bytes))]
pub fn write_image(alloc: Global, image: &Image) -> Result<Vec<u8>, AllocError>
    requires { IsWritableImage image.now }
    ensures layout { IfOk result (λ v. v.items ≡ image_bytes image.now) }
    ensures read_back { IfOk result (λ v. length v.items ≤ FILE_LIMIT → image_in v.items ≡ Ok image.now) }
{
    let mut out = Vec::new(alloc);
    put_header(&mut out, image)?;
    put_programs(&mut out, image)?;
    put_zeros(&mut out, 3980)?;
    put_body(&mut out, image)?;
    put_sections(&mut out, image)?;
    Ok(out)
}
