// The files of a file system, read one at a time, with their faults counted.
ghost use Rattle.std.specs.Prelude.{◌≡◌, ◌≤◌, None, length, drop, is_err, is_some, option_and_then, IfOk, IsSome, OnErr, OnOk};
ghost use Rattle.std.specs.Io.KnownBytes.{ReadConsumes};
ghost use Rattle.dcv_io.specs.Called.{WhereCounted, ReadsAs, counted};
ghost use Rattle.dcv_io.specs.RealState.{told_of};

use crate::counts::raise;
use crate::file_system::{FileSystem, SystemFiles};
use crate::{Failed, Files};
use std::marker::Model;
use std::rt;

// How many bytes are read at once.
const BLOCK: usize = 4096;

/// The files of a file system. Reads return the contents of the open file, wherever the file system exposes these. Names and counts are those of
/// the file system's own calls, wherever it exposes them.
///
/// A read that a signal interrupts has failed.
#[derive(Drop)]
pub struct RealFiles<S: FileSystem> {
    // what opens
    system: S,
    // the file that is open
    file: Option<S::File>,
    // how many opens have failed
    open_faults: u64,
    // how many reads have failed
    read_faults: u64,
    // how many opens and reads there were
    calls: u64,
}

impl<S: FileSystem> Model for RealFiles<S> {
    ghost use Rattle.std.specs.Prelude.{IfSome, IsSome};
    ghost use Rattle.dcv_io.specs.RealState.{RealState};

    ghost Value = { RealState S S.File };

    ghost view = { λ f. record { system = f.system; file = f.file; open_faults = f.open_faults; read_faults = f.read_faults; calls = f.calls } };

    // An open file of a file system that exposes its contents exposes the rest of them.
    ghost invariant = { λ f. IfSome (S.held f.system) (λ _. IfSome f.file (λ file. IsSome (S.remaining f.system file))) };
}

impl<R: rt::Files> RealFiles<SystemFiles<R>> {
    /// The files of the system, of which nothing is told, with none open, no fault and no call.
    pub fn new(runtime: R) -> Self
        ensures told { ⟦<RealFiles<SystemFiles<R>> as Files>⟧.told result ≡ None }
        ensures open_faults { result.open_faults ≡ 0 }
        ensures read_faults { result.read_faults ≡ 0 }
        ensures calls { result.calls ≡ 0 }
    {
        RealFiles::of(SystemFiles::new(runtime))
    }
}

impl<S: FileSystem> RealFiles<S> {
    /// The files of this file system, with none open, no fault and no call.
    pub fn of(system: S) -> Self
        ensures { result ≡ record { system = system; file = None; open_faults = 0; read_faults = 0; calls = 0 } }
    {
        RealFiles {
            system,
            file: None,
            open_faults: 0,
            read_faults: 0,
            calls: 0,
        }
    }
}

impl<S: FileSystem> Files for RealFiles<S> {
    ghost open_faults = { λ f. counted (λ counts. counts.failed_opens) (S.counts f.system) f.open_faults };

    ghost read_faults = { λ f. counted (λ counts. counts.failed_reads) (S.counts f.system) f.read_faults };

    ghost calls = { λ f. counted (λ counts. counts.calls) (S.counts f.system) f.calls };

    ghost told = { told_of S.held S.remaining };

    ghost asked = { λ f. S.asked f.system };

    fn open_file(&mut self, name: &str) -> Result<(), Failed> {
        raise(&mut self.calls);
        match self.system.open(name) {
            Ok(file) => {
                self.file = Some(file);
                Ok(())
            }
            Err(fault) => {
                self.file = None;
                raise(&mut self.open_faults);
                Err(fault)
            }
        }
    }

    fn read(&mut self, buf: &mut [u8]) -> Result<usize, Failed> {
        raise(&mut self.calls);
        let taken = read_once(&mut self.system, &mut self.file, buf);
        if taken.is_err() {
            raise(&mut self.read_faults);
        }
        taken
    }
}

// Reads once. The buffer stays as it was but for what came.
fn read_once<S: FileSystem>(
    system: &mut S,
    file: &mut Option<S::File>,
    buf: &mut [u8],
) -> Result<usize, Failed>
    ensures bound { IfOk result (λ count. count ≤ length buf.old) }
    ensures open { is_some file.new ≡ is_some file.old }
    ensures some { OnOk result (IsSome file.old) }
    ensures bytes { ReadConsumes (option_and_then (S.remaining system.old) file.old) (option_and_then (S.remaining system.new) file.new) result buf.new }
    ensures buffer { IfOk result (λ count. drop count buf.new ≡ drop count buf.old) }
    ensures same_buffer { OnErr result (buf.new ≡ buf.old) }
    ensures held { S.held system.new ≡ S.held system.old }
    ensures asked { S.asked system.new ≡ S.asked system.old }
    ensures counts { WhereCounted (ReadsAs (is_err result)) (S.counts system.old) (S.counts system.new) }
{
    let mut block = [0; BLOCK];
    let room = buf.len().min(BLOCK);
    match system.read(file, &mut block[..room]) {
        Ok(count) => {
            buf[..count].copy_from_slice(&block[..count]);
            Ok(count)
        }
        Err(fault) => Err(fault),
    }
}
