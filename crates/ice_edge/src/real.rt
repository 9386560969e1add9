//! Files of the system, and standard output. They tell no bytes.
ghost use Rattle.std.specs.Prelude.{◌≡◌, ◌≤◌, length, IfOk};

use crate::reading::read_rest;
use crate::{FetchFault, Shelf, WriterSink};
use std::alloc::Global;
use std::io::Printer;
use std::marker::Model;
use std::rt::Files;
use std::{fs, io};

/// Files of the system, by their paths. A count of its faults is one for all names.
#[derive(Drop)]
pub struct DirShelf<'a, R: Files> {
    rt: &'a R,
    faults: u64,
    overlong: u64,
}

impl<'a, R: Files> Model for DirShelf<'a, R> {
    ghost use Rattle.ice_edge.specs.RealCounts.{ReadCounts};

    ghost Value = { ReadCounts };

    ghost view = { λ s. record { faults = s.faults; overlong = s.overlong } };
}

impl<'a, R: Files> DirShelf<'a, R> {
    /// The files of the system, of which none has failed yet.
    pub fn new(rt: &'a R) -> Self
        ensures { result ≡ record { faults = 0; overlong = 0 } }
    {
        DirShelf {
            rt,
            faults: 0,
            overlong: 0,
        }
    }
}

impl<R: Files> DirShelf<'_, R> {
    /// The bytes of the file at this path.
    fn read(&self, alloc: Global, path: &str, limit: usize) -> Result<Vec<u8>, FetchFault>
        ensures { IfOk result (λ bytes. length bytes.items ≤ limit) }
    {
        match fs::open(self.rt, path) {
            Ok(file) => read_rest(alloc, file, limit),
            Err(_) => Err(FetchFault::Failed),
        }
    }
}

impl<R: Files> Shelf for DirShelf<'_, R> {
    ghost use Rattle.ice_edge.specs.RealCounts.{told_of};

    ghost told = { told_of };

    fn fetch(&mut self, alloc: Global, name: &str, limit: usize) -> Result<Vec<u8>, FetchFault> {
        let found = self.read(alloc, name, limit);
        match found {
            Err(FetchFault::Failed) => self.faults = self.faults.saturating_add(1),
            Err(FetchFault::TooLong) => self.overlong = self.overlong.saturating_add(1),
            Ok(_) | Err(FetchFault::NoMemory) => {}
        }
        found
    }
}

/// Standard output.
pub type StdSink<'a, R> = WriterSink<Printer<'a, R>>;

impl<'a, R: Print> WriterSink<Printer<'a, R>> {
    /// Standard output, which has not failed yet.
    pub fn new(rt: &'a R) -> Self
        ensures { result.faults ≡ 0 }
    {
        WriterSink::over(io::writer(rt))
    }
}
