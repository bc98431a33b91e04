// What is remembered of two operands, in the order in which it came, and an index by their hash. The index only tells where to look, and
// what stands there is compared; so to a proof there are the entries alone.
ghost use Rattle.std.specs.Prelude.{◌≡◌, ◌≤◌, ◌+◌, ◌==◌, ◌⊎◌, [], length, map, IfSome, Contains};
ghost use Rattle.dcv_arena.specs.declared.nodes.Ref.{Ref as AnyRef};
ghost use Rattle.dcv_apply.specs.declared.keys.Pair.{Pair as AnyPair};
ghost use Rattle.dcv_apply.specs.Remembered.{entry_of_pair};

use crate::keys::Pair;
use dcv_arena::Ref;
use std::alloc::{AllocError, Global};

// The index has room for so many marks for each entry at least, so that few are looked at.
const SPARE: usize = 2;

// A mark has the number of an entry, counted from 1, and the first digits of its pair's hash. Entries beyond these numbers are not found.
const NUMBER: u32 = 0x00FF_FFFF;

const TAG: u32 = 0xFF00_0000;

// So many marks are looked at for one pair. Where hashes fall together, an entry whose mark has no place among these is not found again, so no
// look-up takes long.
const MOST_PROBES: usize = 64;

// So many entries have room from the first on, which most operations never fill.
const FIRST_ROOM: usize = 64;

#[derive(Drop)]
pub(crate) struct Table {
    // the entries, in the order in which they came
    pub(crate) entries: Vec<(Pair, Ref)>,
    // At the hash of a pair, or after it, the mark of its entry, and 0 where there is none. It is a power of 2 long, or empty.
    index: Vec<u32>,
}

impl Table {
    // A table with no entries. No memory is taken before there are entries.
    pub(crate) fn new(alloc: Global) -> Table
        ensures { result.entries.items ≡ [] }
    {
        Table {
            entries: Vec::new(alloc),
            index: Vec::new(alloc),
        }
    }

    pub(crate) fn len(&self) -> usize
        ensures { result ≡ length self.now.entries.items }
    {
        self.entries.len()
    }

    pub(crate) fn is_empty(&self) -> bool
        ensures { result ≡ (length self.now.entries.items == 0) }
    {
        self.entries.len() == 0
    }

    // The ref of a pair.
    #[inline(always)]
    pub(crate) fn get(&self, pair: Pair) -> Option<Ref>
        ensures { IfSome result (λ root. Contains (map entry_of_pair self.now.entries.items) (entry_of_pair (pair, root))) }
    {
        let last = self.index.len().wrapping_sub(1);
        let digest = pair.digest();
        let mut at = digest as usize;
        for _ in 0..MOST_PROBES {
            at &= last;
            let mark = self.index.get(at).copied().unwrap_or(0);
            if mark == 0 {
                return None;
            }
            if (mark ^ digest) & TAG == 0 {
                let root = self.root_at((mark & NUMBER).wrapping_sub(1) as usize, pair);
                if root.is_some() {
                    return root;
                }
            }
            at = at.wrapping_add(1);
        }
        None
    }

    // The ref of the entry at this place, if it is the pair's.
    #[inline(always)]
    fn root_at(&self, place: usize, pair: Pair) -> Option<Ref>
        ensures { IfSome result (λ root. Contains (map entry_of_pair self.now.entries.items) (entry_of_pair (pair, root))) }
    {
        match self.entries.get(place) {
            Some((there, root)) if *there == pair => Some(*root),
            _ => None,
        }
    }

    // Adds an entry, unless memory runs out.
    pub(crate) fn add(&mut self, pair: Pair, root: Ref)
        ensures adds { (one : AnyPair × AnyRef) → Contains self.new.entries.items one → Contains self.old.entries.items one ⊎ (one ≡ (pair, root)) }
        ensures len { length self.new.entries.items ≤ length self.old.entries.items + 1 }
    {
        if self.entries.len().saturating_mul(SPARE) >= self.index.len() && self.grow().is_err() {
            return;
        }
        if self.entries.push((pair, root)).is_ok() {
            put(&mut self.index, pair, self.entries.len());
        }
    }

    // Makes room, and an index of twice the length.
    #[inline(never)]
    fn grow(&mut self) -> Result<(), AllocError>
        ensures { self.new.entries.items ≡ self.old.entries.items }
    {
        let alloc = *self.entries.allocator();
        let many = self.index.len().max(FIRST_ROOM).saturating_mul(2);
        let mut index = vec![in alloc; 0u32; many]?;
        put_all(&mut index, &self.entries);
        self.entries.reserve(self.entries.len().max(FIRST_ROOM))?;
        self.index = index;
        Ok(())
    }

    // Forgets all entries. Their memory is kept for others.
    pub(crate) fn clear(&mut self)
        ensures { self.new.entries.items ≡ [] }
    {
        self.entries.clear();
        for mark in self.index.iter_mut() {
            *mark = 0;
        }
    }
}

// Marks the entry of a pair, which has this number.
fn put(index: &mut [u32], pair: Pair, number: usize) {
    if number > NUMBER as usize {
        return;
    }
    let digest = pair.digest();
    let last = index.len().wrapping_sub(1);
    let mut at = digest as usize;
    for _ in 0..MOST_PROBES {
        at &= last;
        match index.get_mut(at) {
            Some(mark) if *mark == 0 => {
                *mark = digest & TAG | number as u32;
                return;
            }
            _ => at = at.wrapping_add(1),
        }
    }
}

// Marks all entries.
fn put_all(index: &mut [u32], entries: &[(Pair, Ref)]) {
    let mut number = 1;
    for (pair, _) in entries {
        put(index, *pair, number);
        number = number.saturating_add(1);
    }
}
