//! String tables: names, each ended by a zero byte.

ghost use Rattle.std.specs.Prelude.{◌≡◌, ℕ, ◌+◌, ◌<◌, ◌^◌, List, length, OnOk, IfOk};
ghost use Rattle.elf_form.specs.StringTable.{with_name};
ghost use Rattle.elf_form.specs.Writable.{IsStringTable};
ghost use Rattle.elf_form.specs.ObjectLayout.{names_of, strings_of};

use crate::object::{Symbol, bytes_of};
use std::alloc::{AllocError, Global};
use std::collections::HashMap;

/// Where each name of a string table begins in it.
pub type Places<'a> = HashMap<&'a [u8], u32>;

/// Puts a name at the end of a string table, unless it is there.
pub fn put_name<'a>(
    strings: &mut Vec<u8>,
    places: &mut Places<'a>,
    name: &'a [u8],
) -> Result<(), AllocError>
    requires { length strings.old.items < 2 ^ 32 }
    ensures { OnOk result ((names : List (List ℕ)) → IsStringTable names strings.old.items places.old
        → IsStringTable (with_name names name.now) strings.new.items places.new) }
{
    if places.contains_key(name) {
        return Ok(());
    }
    let at = strings.len() as u32;
    strings.extend_from_slice(name)?;
    strings.push(0)?;
    places.insert(name, at)?;
    Ok(())
}

/// The string table of the symbols' names, and where each name begins.
pub fn strings<'a>(
    alloc: Global,
    symbols: &'a [Symbol],
) -> Result<(Vec<u8>, Places<'a>), AllocError>
    requires { length (strings_of symbols.now) < 2 ^ 32 }
    ensures { IfOk result (λ r. IsStringTable (names_of symbols.now) r.0.items r.1) }
{
    let mut strings = Vec::new(alloc);
    let mut places = HashMap::new(alloc);
    put_name(&mut strings, &mut places, &[])?;
    for s in symbols {
        put_name(&mut strings, &mut places, bytes_of(&s.name))?;
    }
    Ok((strings, places))
}
