//! What the items so far make.

ghost use Rattle.std.specs.Prelude.{◌≡◌, ◌<◌, ◌+◌, ◌^◌, length, replicate, OnOk, IfOk};
ghost use Rattle.afterburner.specs.ObjectSoFar.{fresh, undefined};

use crate::section::Section;
use crate::symbol::{Binding, Definition};
use asm_source::Names;
use elf_form::{Place, Reloc};
use sites::Site;
use std::alloc::{AllocError, Global};
use std::marker::Model;

/// The section in which the next item stands, whether the last item was an STI that is a site of its
/// own, the three sections, the sites, the relocations, and a definition for each name. A relocation
/// has the number of its name in place of that of its symbol.
#[derive(Drop)]
pub struct Assembly {
    pub section: Section,
    pub after_sti: bool,
    pub text: Vec<u8>,
    pub init: Vec<u8>,
    /// How many zeroed bytes there are.
    pub bss: usize,
    pub sites: Vec<Site>,
    pub text_relocs: Vec<Reloc>,
    pub data_relocs: Vec<Reloc>,
    /// By the number of the name, in the order in which names were first seen.
    pub definitions: Vec<Definition>,
}

impl Model for Assembly {
    ghost use Rattle.afterburner.specs.ObjectSoFar.{ObjectSoFar};

    ghost Value = { ObjectSoFar };

    ghost view = { λ s. record {
      section = s.section;
      after_sti = s.after_sti;
      text = s.text.items;
      init = s.init.items;
      bss = s.bss;
      sites = s.sites.items;
      text_relocs = s.text_relocs.items;
      data_relocs = s.data_relocs.items;
      definitions = s.definitions.items;
    } };
}

fn undefined() -> Definition
    ensures { result ≡ undefined }
{
    Definition {
        place: Place::Undefined,
        value: 0,
        binding: Binding::Unsaid,
    }
}

fn definitions(alloc: Global, count: usize) -> Result<Vec<Definition>, AllocError>
    ensures { IfOk result (λ v. v.items ≡ replicate count undefined) }
{
    let mut list = Vec::new(alloc);
    list.resize(count, undefined())?;
    Ok(list)
}

impl Assembly {
    /// A source begins in text, and none of its names is defined.
    pub fn new(alloc: Global, names: &Names) -> Result<Assembly, AllocError>
        ensures { IfOk result (λ st. st ≡ fresh names.now) }
    {
        Ok(Assembly {
            section: Section::Text,
            after_sti: false,
            text: Vec::new(alloc),
            init: Vec::new(alloc),
            bss: 0,
            sites: Vec::new(alloc),
            text_relocs: Vec::new(alloc),
            data_relocs: Vec::new(alloc),
            definitions: definitions(alloc, names.len())?,
        })
    }
}
