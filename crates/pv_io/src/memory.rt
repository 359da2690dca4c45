//! Files in memory, some of whose calls fail by a list, and files of which nothing fails.

ghost use Rattle.std.specs.Prelude.{◌≡◌, true, false, [], Some, None, Err, IfOk, OnOk, OnErr, IsErrOf, if◌then◌else◌};
ghost use Rattle.pv_io.specs.Causes.{Rose};
ghost use Rattle.pv_io.specs.Answered.{HasCause, IsMissing, Loads};
ghost use Rattle.pv_io.specs.Files.{Stores, ChangesAt};
ghost use Rattle.pv_io.specs.Held.{HoldsAt};
ghost use Rattle.guest_ram.specs.Among.{is_among};
ghost use Rattle.pv_io.specs.MemSink.{one_more};
ghost use Rattle.pv_io.specs.MemFiles.{held_of, load_fails};

use crate::files::append;
use crate::{Files, IoAnswer};
use std::alloc::{AllocError, Global};
use std::collections::BTreeMap;

/// Files that are kept in memory. The loads and stores whose numbers, from 0 over both, are in the list
/// fail; `calls` is the number of the next.
#[derive(Drop)]
pub struct MemFiles {
    alloc: Global,
    pub files: BTreeMap<String, Vec<u8>>,
    pub calls: u64,
    pub fail: Vec<u64>,
    pub load_faults: u64,
    pub store_faults: u64,
}

impl MemFiles {
    /// No files, and the list of the calls that fail.
    pub fn new(alloc: Global, fail: Vec<u64>) -> Result<MemFiles, AllocError>
        ensures empty { IfOk result (λ f. f.files.entries ≡ []) }
        ensures listed { IfOk result (λ f. (f.calls ≡ 0) × (f.fail.items ≡ fail.items)) }
        ensures counts { IfOk result (λ f. (f.load_faults ≡ 0) × (f.store_faults ≡ 0)) }
    {
        Ok(MemFiles {
            alloc,
            files: BTreeMap::new(alloc),
            calls: 0,
            fail,
            load_faults: 0,
            store_faults: 0,
        })
    }
}

/// The number of a call is in the list.
fn is_among(call: u64, fail: &Vec<u64>) -> bool
    ensures { result ≡ is_among call fail.now.items }
{
    fail.contains(&call)
}

impl Files for MemFiles {
    ghost held = { λ f. Some (held_of f.files) };

    ghost load_faults = { λ f. f.load_faults };

    ghost store_faults = { λ f. f.store_faults };

    ghost sure = { λ _. false };

    /// Fails exactly where the call's number is in the list or the name isn't held.
    fn load(&mut self, alloc: Global, name: &str, into: &mut Vec<u8>) -> Result<(), IoAnswer>
        ensures loads { OnOk result (Loads (Some (held_of self.old.files)) name.now into.old.items into.new.items) }
        ensures err { OnErr result (into.new.items ≡ into.old.items) }
        ensures held { self.new.files ≡ self.old.files }
        ensures cause { HasCause self.old.load_faults self.new.load_faults result }
        ensures kept { OnOk result (self.new.load_faults ≡ self.old.load_faults) }
        ensures missing { IsMissing (Some (held_of self.old.files)) name.now → Rose self.old.load_faults self.new.load_faults }
        ensures other_count { self.new.store_faults ≡ self.old.store_faults }

        ensures refused { load_fails self.old.calls self.old.fail.items self.old.files name.now ≡ true → result ≡ Err IoAnswer.Failed }
        ensures granted { load_fails self.old.calls self.old.fail.items self.old.files name.now ≡ false
            → IsErrOf result IoAnswer.Failed → ⊥ }
        ensures counted { self.new.load_faults ≡
            (if load_fails self.old.calls self.old.fail.items self.old.files name.now then one_more self.old.load_faults
            else self.old.load_faults) }
        ensures calls { self.new.calls ≡ one_more self.old.calls }
        ensures list { self.new.fail.items ≡ self.old.fail.items }
    {
        let _ = alloc;
        let listed = is_among(self.calls, &self.fail);
        self.calls = self.calls.saturating_add(1);
        if listed {
            self.load_faults = self.load_faults.saturating_add(1);
            return Err(IoAnswer::Failed);
        }
        match self.files.get(name) {
            Some(bytes) => append(into, bytes),
            None => {
                self.load_faults = self.load_faults.saturating_add(1);
                Err(IoAnswer::Failed)
            }
        }
    }

    /// Fails exactly where the call's number is in the list; it then changes no file.
    fn store(&mut self, name: &str, bytes: &[u8]) -> Result<(), IoAnswer>
        ensures stores { OnOk result (Stores (Some (held_of self.old.files)) (Some (held_of self.new.files)) name.now bytes.now) }
        ensures failed { IsErrOf result IoAnswer.Failed
            → ChangesAt (Some (held_of self.old.files)) (Some (held_of self.new.files)) name.now }
        ensures memory { IsErrOf result IoAnswer.Memory → held_of self.new.files ≡ held_of self.old.files }
        ensures cause { HasCause self.old.store_faults self.new.store_faults result }
        ensures kept { OnOk result (self.new.store_faults ≡ self.old.store_faults) }
        ensures other_count { self.new.load_faults ≡ self.old.load_faults }

        ensures refused { is_among self.old.calls self.old.fail.items ≡ true → result ≡ Err IoAnswer.Failed }
        ensures granted { is_among self.old.calls self.old.fail.items ≡ false → IsErrOf result IoAnswer.Failed → ⊥ }
        ensures unchanged { IsErrOf result IoAnswer.Failed → self.new.files ≡ self.old.files }
        ensures counted { self.new.store_faults ≡
            (if is_among self.old.calls self.old.fail.items then one_more self.old.store_faults else self.old.store_faults) }
        ensures calls { self.new.calls ≡ one_more self.old.calls }
        ensures list { self.new.fail.items ≡ self.old.fail.items }
    {
        let listed = is_among(self.calls, &self.fail);
        self.calls = self.calls.saturating_add(1);
        if listed {
            self.store_faults = self.store_faults.saturating_add(1);
            return Err(IoAnswer::Failed);
        }
        put_file(self.alloc, &mut self.files, name, bytes)
    }
}

fn put_file(
    alloc: Global,
    files: &mut BTreeMap<String, Vec<u8>>,
    name: &str,
    bytes: &[u8],
) -> Result<(), IoAnswer>
    ensures ok { OnOk result (HoldsAt files.old files.new name.now bytes.now) }
    ensures err { OnErr result (files.new.entries ≡ files.old.entries) }
    ensures memory { IsErrOf result IoAnswer.Failed → ⊥ }
{
    let key = String::from_str(alloc, name)?;
    let value = Vec::from_slice(alloc, bytes)?;
    insert(files, key, value)
}

fn insert(
    files: &mut BTreeMap<String, Vec<u8>>,
    key: String,
    value: Vec<u8>,
) -> Result<(), IoAnswer>
    ensures ok { OnOk result (HoldsAt files.old files.new key.bytes.items value.items) }
    ensures err { OnErr result (files.new.entries ≡ files.old.entries) }
    ensures memory { IsErrOf result IoAnswer.Failed → ⊥ }
{
    match files.insert(key, value) {
        Ok(_) => Ok(()),
        Err(_) => Err(IoAnswer::Memory),
    }
}

/// Files that are kept in memory, where nothing fails but a load of a name that isn't held.
#[derive(Drop)]
pub struct SureFiles {
    alloc: Global,
    pub files: BTreeMap<String, Vec<u8>>,
    pub load_faults: u64,
}

impl SureFiles {
    /// No files.
    pub fn new(alloc: Global) -> Result<SureFiles, AllocError>
        ensures empty { IfOk result (λ f. f.files.entries ≡ []) }
        ensures count { IfOk result (λ f. f.load_faults ≡ 0) }
    {
        Ok(SureFiles {
            alloc,
            files: BTreeMap::new(alloc),
            load_faults: 0,
        })
    }
}

impl Files for SureFiles {
    ghost held = { λ f. Some (held_of f.files) };

    ghost load_faults = { λ f. f.load_faults };

    ghost store_faults = { λ _. 0 };

    ghost sure = { λ _. true };

    fn load(&mut self, alloc: Global, name: &str, into: &mut Vec<u8>) -> Result<(), IoAnswer> {
        let _ = alloc;
        match self.files.get(name) {
            Some(bytes) => append(into, bytes),
            None => {
                self.load_faults = self.load_faults.saturating_add(1);
                Err(IoAnswer::Failed)
            }
        }
    }

    fn store(&mut self, name: &str, bytes: &[u8]) -> Result<(), IoAnswer> {
        put_file(self.alloc, &mut self.files, name, bytes)
    }
}
