// What files are opened from, by name.
ghost use Rattle.std.specs.Prelude.{◌≡◌, ◌≤◌, ℕ, List, [], ◌∷◌, Option, None, length, is_err, is_some, option_and_then, IfOk, IfSome, IsSome, OnOk, IsTrue};
ghost use Rattle.std.specs.Io.KnownBytes.{ReadConsumes};
ghost use Rattle.dcv_io.specs.Called.{Calls, WhereCounted, OpensAs, ReadsAs};
ghost use Rattle.dcv_io.specs.Asked.{Asks};

use crate::Failed;
use std::io::Read;
use std::{fs, rt};

/// A source of files: the system, or a twin of it that exposes its contents and its calls to specifications.
pub trait FileSystem {
    /// An open file, which is read from its first byte on.
    type File: Drop;

    /// The rest of an open file; None claims nothing.
    ghost remaining: { Self → Self.File → Option (List ℕ) };

    /// What is held under the bytes of each name; None claims nothing.
    ghost held: { Self → Option (List ℕ → Option (List ℕ)) };

    /// The names that it was asked for, in order; None claims nothing.
    ghost asked: { Self → Option (List (List ℕ)) };

    /// The numbers of its calls and of those that failed; None claims nothing.
    ghost counts: { Self → Option Calls };

    /// Opens the file of this name. What is held under it is then left to read.
    fn open(&mut self, name: &str) -> Result<Self::File, Failed>
        ensures there { IfOk result (λ _. IfSome (held self.old) (λ held. IsSome (held name.now))) }
        ensures whole { IfOk result (λ file. IfSome (held self.old) (λ held. remaining self.new file ≡ held name.now)) }
        ensures held { held self.new ≡ held self.old }
        ensures asked { Asks (name.now ∷ []) (asked self.old) (asked self.new) }
        ensures counts { WhereCounted (OpensAs (is_err result)) (counts self.old) (counts self.new) };

    /// Reads the next bytes of the file into the front of the buffer, and returns how many. Without a file it fails.
    fn read(&mut self, file: &mut Option<Self::File>, buf: &mut [u8]) -> Result<usize, Failed>
        ensures bound { IfOk result (λ count. count ≤ length buf.old) }
        ensures open { is_some file.new ≡ is_some file.old }
        ensures some { OnOk result (IsSome file.old) }
        ensures bytes { ReadConsumes (option_and_then (remaining self.old) file.old) (option_and_then (remaining self.new) file.new) result buf.new }
        ensures held { held self.new ≡ held self.old }
        ensures asked { asked self.new ≡ asked self.old }
        ensures counts { WhereCounted (ReadsAs (is_err result)) (counts self.old) (counts self.new) };
}

/// The files of the system, by their paths. A directory may be opened, and its first read fails.
#[derive(Drop)]
pub struct SystemFiles<R: rt::Files> {
    // what opens
    runtime: R,
}

impl<R: rt::Files> SystemFiles<R> {
    /// The files that this runtime opens.
    pub fn new(runtime: R) -> Self {
        SystemFiles { runtime }
    }
}

impl<R: rt::Files> FileSystem for SystemFiles<R> {
    type File = R::File;

    ghost remaining = { λ _ file. R.File.remaining file };

    ghost held = { λ _. None };

    ghost asked = { λ _. None };

    ghost counts = { λ _. None };

    fn open(&mut self, name: &str) -> Result<R::File, Failed> {
        fs::open(&self.runtime, name).map_err(|_| Failed)
    }

    fn read(&mut self, file: &mut Option<R::File>, buf: &mut [u8]) -> Result<usize, Failed> {
        match file {
            Some(file) => file.read(buf).map_err(|_| Failed),
            None => Err(Failed),
        }
    }
}
