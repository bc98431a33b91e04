// Files in memory.
ghost use Rattle.std.specs.Prelude.{◌≡◌, ◌+◌, ◌^◌, ◌<◌, ◌≤◌, ℕ, All, [], ◌++◌, None, Some, is_err, length, take, drop, IfOk, OnOk, OnErr, IsNone, IsSomeAnd, MatchOption};
ghost use Rattle.dcv_io.specs.Faults.{raised, RisesIf};
ghost use Rattle.dcv_io.specs.FilesState.{held_under, refuses_open, refuses_read, given_into, after_open, after_failed_open, after_read, after_failed_read, with_file};
ghost use Rattle.dcv_io.specs.HeldFile.{pairs_of, bytes_at, IsWithin};

use crate::counts::raise;
use crate::schedule::Schedule;
use crate::{Failed, Files};
use std::alloc::{AllocError, Global};
use std::marker::Model;

/// Files in memory, which expose everything but the names that they were asked for. Tests use them in place of the real ones.
#[derive(Drop)]
pub struct MemFiles {
    // where copies of files are allocated
    alloc: Global,
    // the files with their names
    files: Vec<HeldFile>,
    // what is left to read of the file that is open
    place: Option<Place>,
    // how long reads are, and which calls fail
    schedule: Schedule,
    // how many opens have failed
    open_faults: u64,
    // how many reads have failed
    read_faults: u64,
}

#[derive(Drop)]
struct HeldFile {
    // its name
    name: String,
    // what it holds
    bytes: Vec<u8>,
}

// Where the next read begins: the file by its index, and the byte in it.
#[derive(Clone, Copy)]
struct Place {
    // which file
    file: usize,
    // where the next read begins
    at: usize,
}

impl Model for MemFiles {
    ghost use Rattle.dcv_io.specs.FilesState.{FilesState};

    ghost Value = { FilesState };

    ghost use Rattle.std.specs.Prelude.{IfSome};
    ghost use Rattle.dcv_io.specs.HeldFile.{pairs_of, unread_at, IsWithin};

    ghost view = { λ f. record {
      held = pairs_of f.files.items;
      unread = unread_at f.files.items f.place;
      plan = f.schedule;
      open_faults = f.open_faults;
      read_faults = f.read_faults;
    } };

    ghost invariant = { λ f. IfSome f.place (IsWithin f.files.items) };
}

impl MemFiles {
    /// Files of which none is held yet.
    ///
    /// The n-th read that gives bytes gives at most the n-th of `sizes`, and once they are used up as many as there is
    /// room for. The calls whose numbers, from 1, are in `fails` fail; opens and reads are counted together.
    pub fn new(alloc: Global, sizes: &[usize], fails: &[u64]) -> Result<MemFiles, AllocError>
        requires { All (λ size. 0 < size) sizes.now }
        ensures { IfOk result (λ files. files ≡ record {
          held = [];
          unread = None;
          open_faults = 0;
          read_faults = 0;
          plan = record { sizes = sizes.now; fails = fails.now; calls = 0 };
        }) }
    {
        Ok(MemFiles {
            alloc,
            files: Vec::new(alloc),
            place: None,
            schedule: Schedule::new(alloc, sizes, fails)?,
            open_faults: 0,
            read_faults: 0,
        })
    }

    /// Holds these bytes under a name under which nothing is held yet.
    pub fn hold(&mut self, name: &str, bytes: &[u8]) -> Result<(), AllocError>
        requires { IsNone (held_under self.old.held name.now) }
        ensures ok { OnOk result (self.new ≡ with_file self.old name.now bytes.now) }
        ensures err { OnErr result (self.new ≡ self.old) }
    {
        let name = String::from_str(self.alloc, name)?;
        let bytes = Vec::from_slice(self.alloc, bytes)?;
        self.files.push(HeldFile { name, bytes })?;
        Ok(())
    }
}

impl Files for MemFiles {
    ghost use Rattle.std.specs.Prelude.{Some};
    ghost use Rattle.dcv_io.specs.FilesState.{disk_of};

    ghost open_faults = { λ f. f.open_faults };

    ghost read_faults = { λ f. f.read_faults };

    ghost calls = { λ f. f.plan.calls };

    ghost told = { λ f. Some (disk_of f) };

    ghost asked = { λ _. None };

    fn open_file(&mut self, name: &str) -> Result<(), Failed>
        ensures refused { is_err result ≡ refuses_open self.old name.now }
        ensures ok { OnOk result (self.new ≡ after_open self.old name.now) }
        ensures err { OnErr result (self.new ≡ after_failed_open self.old) }

        ensures open_faults { RisesIf (is_err result) self.old.open_faults self.new.open_faults }
    {
        let fails = self.schedule.begin_call();
        match position_of(&self.files, name) {
            Some(file) if !fails => {
                self.place = Some(Place { file, at: 0 });
                Ok(())
            }
            _ => {
                self.place = None;
                raise(&mut self.open_faults);
                Err(Failed)
            }
        }
    }

    fn read(&mut self, buf: &mut [u8]) -> Result<usize, Failed>
        ensures refused { is_err result ≡ refuses_read self.old }
        ensures count { IfOk result (λ count. count ≡ given_into self.old (length buf.old)) }
        ensures bytes { IfOk result (λ count. IsSomeAnd self.old.unread (λ rest.
            buf.new ≡ take count rest ++ drop count buf.old)) }
        ensures ok { IfOk result (λ count. self.new ≡ after_read self.old count) }
        ensures err { OnErr result (self.new ≡ after_failed_read self.old) }
        ensures same_buffer { OnErr result (buf.new ≡ buf.old) }

        ensures end { IfOk result (λ count.
            count ≡ 0 → 0 < length buf.old → self.old.unread ≡ Some []) }
        ensures read_faults { RisesIf (is_err result) self.old.read_faults self.new.read_faults }
        ensures calls { self.new.plan.calls ≡ raised self.old.plan.calls }
    {
        let fails = self.schedule.begin_call();
        match self.place {
            Some(place) if !fails => {
                let rest = unread(&self.files, place);
                let count = self.schedule.share(rest.len().min(buf.len()));
                copy_front(&rest[..count], buf);
                let at = place.at + count;
                self.place = Some(Place { at, ..place });
                self.schedule.advance(count);
                Ok(count)
            }
            _ => {
                raise(&mut self.read_faults);
                Err(Failed)
            }
        }
    }
}

// The index of the file of this name.
fn position_of(files: &[HeldFile], name: &str) -> Option<usize>
    ensures { MatchOption result
        (held_under (pairs_of files.now) name.now ≡ None)
        (λ index. (index < length files.now)
        × (held_under (pairs_of files.now) name.now ≡ Some (bytes_at files.now index))) }
{
    for (index, file) in files.iter().enumerate() {
        if file.name.as_str() == name {
            return Some(index);
        }
    }
    None
}

// What is left after a place.
fn unread(files: &[HeldFile], place: Place) -> &[u8]
    requires { IsWithin files.now place }
    ensures rest { result.now ≡ drop place.at (bytes_at files.now place.file) }
    ensures fits { place.at + length result.now < 2 ^ 64 }
{
    let bytes = files[place.file].bytes.as_slice();
    &bytes[place.at..]
}

// Copies all these bytes to the front of the others.
fn copy_front(from: &[u8], to: &mut [u8])
    requires { length from.now ≤ length to.old }
    ensures { to.new ≡ from.now ++ drop (length from.now) to.old }
{
    to[..from.len()].copy_from_slice(from);
}
