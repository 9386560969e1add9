//! A shelf whose files lie in memory.
ghost use Rattle.std.specs.Prelude.{◌≡◌, ◌==◌, ◌≤◌, length, map, IfOk, IfErr, Err, IsErrOf, OnOk, OnErr, Some, None, MatchOption};
ghost use Rattle.std.specs.List.{list_any};
ghost use Rattle.ice_edge.specs.Told.{IsLater, AreTold, IsLonger, FaultRose, OverlongRose};
ghost use Rattle.ice_edge.specs.MemoryShelf.{found, empty_shelf, with_file, with_failing, fetch_fault, after_fetch, told_of};
ghost use Rattle.ice_edge.specs.MemoryFile.{file_of};

use crate::{FetchFault, NoMemory, Shelf};
use std::alloc::{AllocError, Global};
use std::marker::Model;

#[derive(Drop)]
struct MemFile {
    name: String,
    bytes: Vec<u8>,
}

/// Files in memory, for tests. A fetch fails where it is told to, and where there is no file of the
/// name.
#[derive(Drop)]
pub struct MemShelf {
    alloc: Global,
    files: Vec<MemFile>,
    failing: Vec<u64>,
    calls: u64,
    faults: u64,
    overlong: u64,
}

impl Model for MemShelf {
    ghost use Rattle.std.specs.Prelude.{map};
    ghost use Rattle.ice_edge.specs.MemoryShelf.{ShelfState};
    ghost use Rattle.ice_edge.specs.MemoryFile.{file_of};

    ghost Value = { ShelfState };

    ghost view = { λ s. record { files = map file_of s.files.items; failing = s.failing.items; calls = s.calls; faults = s.faults; overlong = s.overlong } };
}

fn look_up<'a>(files: &'a [MemFile], name: &str) -> Option<&'a Vec<u8>>
    ensures { let here = found (map file_of files.now) name.now in
        MatchOption result (here ≡ None) (λ bytes. here ≡ Some bytes.now.items) }
{
    for file in files {
        if file.name.as_str() == name {
            return Some(&file.bytes);
        }
    }
    None
}

fn make_file(alloc: Global, name: &str, bytes: &[u8]) -> Result<MemFile, AllocError>
    ensures { IfOk result (λ file. file_of file ≡ record { name = name.now; bytes = bytes.now }) }
{
    Ok(MemFile {
        name: String::from_str(alloc, name)?,
        bytes: bytes.to_vec(alloc)?,
    })
}

fn is_planned(failing: &[u64], call: u64) -> bool
    ensures { result ≡ list_any (λ planned. planned == call) failing.now }
{
    failing.contains(&call)
}

impl MemShelf {
    /// An empty shelf, of which no fetch is to fail.
    pub fn new(alloc: Global) -> Result<MemShelf, NoMemory>
        ensures { IfOk result (λ shelf. shelf ≡ empty_shelf) }
    {
        Ok(MemShelf {
            alloc,
            files: Vec::new(alloc),
            failing: Vec::new(alloc),
            calls: 0,
            faults: 0,
            overlong: 0,
        })
    }

    /// Adds a file, or puts other bytes under its name.
    pub fn add(&mut self, name: &str, bytes: &[u8]) -> Result<(), NoMemory>
        ensures ok { OnOk result (self.new ≡ with_file self.old name.now bytes.now) }
        ensures err { OnErr result (self.new ≡ self.old) }
    {
        let Ok(file) = make_file(self.alloc, name, bytes) else {
            return Err(NoMemory);
        };
        let Ok(()) = self.files.insert(0, file) else {
            return Err(NoMemory);
        };
        Ok(())
    }

    /// Makes the fetch with this number fail, counted from 1 on since the shelf was made. Every
    /// such call counts.
    pub fn fail_at(&mut self, call: u32) -> Result<(), NoMemory>
        ensures ok { OnOk result (self.new ≡ with_failing self.old call) }
        ensures err { OnErr result (self.new ≡ self.old) }
    {
        let Ok(()) = self.failing.push(u64::from(call)) else {
            return Err(NoMemory);
        };
        Ok(())
    }
}

impl Shelf for MemShelf {
    ghost told = { told_of };

    fn fetch(&mut self, alloc: Global, name: &str, limit: usize) -> Result<Vec<u8>, FetchFault>
        // The bytes that are had, or are too many.
        ensures bytes { IfOk result (λ v. AreTold (told_of self.old) name.now v.items) }
        ensures within { IfOk result (λ v. length v.items ≤ limit) }
        ensures too_long { IsErrOf result FetchFault.TooLong
            → IsLonger (told_of self.old) name.now limit }

        // The counts that rise.
        ensures failed { IsErrOf result FetchFault.Failed
            → FaultRose (told_of self.old) (told_of self.new) name.now }
        ensures overlong { IsErrOf result FetchFault.TooLong
            → OverlongRose (told_of self.old) (told_of self.new) name.now limit }

        // What stays the same.
        ensures kept { OnOk result (told_of self.new ≡ told_of self.old) }
        ensures kept_in_want { IsErrOf result FetchFault.NoMemory
            → told_of self.new ≡ told_of self.old }
        ensures later { IsLater (told_of self.old) (told_of self.new) }

        // It fails exactly where it is told to and where there is no file, and else is too long
        // exactly where there are more than `limit` bytes. Only want of memory comes beside that.
        ensures after { self.new ≡ after_fetch self.old name.now limit }
        ensures answer { MatchOption (fetch_fault self.old name.now limit)
            (IfErr result (λ fault. fault ≡ FetchFault.NoMemory)) (λ fault. result ≡ Err fault) }
    {
        self.calls = self.calls.saturating_add(1);
        if is_planned(&self.failing, self.calls) {
            self.faults = self.faults.saturating_add(1);
            return Err(FetchFault::Failed);
        }
        let Some(bytes) = look_up(&self.files, name) else {
            self.faults = self.faults.saturating_add(1);
            return Err(FetchFault::Failed);
        };
        if bytes.len() > limit {
            self.overlong = self.overlong.saturating_add(1);
            return Err(FetchFault::TooLong);
        }
        Ok(bytes.to_vec(alloc)?)
    }
}
