// What operations remember, so that nodes to which several paths lead are gone through once (R. E. Bryant's table of pairs that
// were met, 1986). Its size is bounded. Most operations have two operands, whose entries stand side by side in two maps, a younger
// and an older: when the younger is full the older one is forgotten, which takes no list by last use and no memory for an entry
// alone. Of other numbers of operands the first entries stand in a map too, and what comes after them goes through a cache, from
// which the entry that was used least lately goes first. The lists of that map are bounded together as well, since a list may be
// as long as an automaton has states.
ghost use Rattle.std.specs.Prelude.{◌≡◌, ◌≤◌, ◌==◌, [], length, IfOk, IfSome, OnErr, Contains};
ghost use Rattle.dcv_apply.specs.Remembered.{entry, KeepsEntries, Adds};
ghost use Rattle.dcv_apply.specs.Pairs.{pair_operands};

use crate::cache::Cache;
use crate::keys::{Key, Pair};
use crate::table::Table;
use dcv_arena::Ref;
use indexmap::IndexMap;
use std::alloc::{AllocError, Global};
use std::marker::Model;
use std::mem::swap;
use std::num::NonZeroUsize;

/// The capacity of a memo where its caller asks for no other. An exploration takes such a memo, and so does a proposition whose operands are
/// joined. It is a bound alone: a memo grows with its entries.
pub const USUAL_CAPACITY: usize = 65_536;

// How many operands the lists of the map of other numbers of operands may have together before they are forgotten: 16 bytes each.
const MOST_OPERANDS: usize = 2_097_152;

/// What operations remember: for a round and operands, the ref that they were merged into.
///
/// It never holds more entries than its capacity. Entries of two operands are forgotten by age, a half at a time, whether they were used or
/// not. Of other numbers of operands the first ones are kept, while there is room, and forgotten together once their lists have more than
/// 2,097,152 operands; the rest, of two operands too where the room is taken up, goes through a cache of an eighth of the capacity, from which
/// the entry that was used least lately goes first. A round is a number that the caller gives to one merge with one arena for the results, and
/// entries are found again in their round alone.
#[derive(Drop)]
pub struct Memo {
    // results for pairs, of the younger generation
    younger: Table,
    // those of the generation before, which are forgotten with the next
    older: Table,
    // results for other numbers of operands: the first that came, while there is room
    first: IndexMap<Key, Ref>,
    // How many operands the keys of `first` have together.
    operands: usize,
    // How many entries the maps may have together.
    room: usize,
    // the rest, of which the one used least lately goes first
    later: Cache,
}

impl Model for Memo {
    ghost use Rattle.std.specs.Prelude.{◌≡◌, ◌<◌, ◌≤◌, ◌+◌, ◌^◌, ◌++◌, length, map};
    ghost use Rattle.dcv_apply.specs.Memo.{MemoValue};
    ghost use Rattle.dcv_apply.specs.Remembered.{entry_of, entry_of_pair};

    ghost Value = { MemoValue };

    ghost view = { λ memo. record {
      entries = map entry_of_pair memo.younger.entries.items ++ (map entry_of_pair memo.older.entries.items ++ (map entry_of memo.first.entries ++ map entry_of memo.later.entries));
      capacity = memo.room + memo.later.cap;
    } };

    ghost invariant = { λ memo. (length memo.younger.entries.items + length memo.older.entries.items + length memo.first.entries ≤ memo.room) × (memo.room + memo.later.cap < 2 ^ 64) };
}

impl Memo {
    /// A memo with no entries, for this many at most. No memory is taken before there are entries.
    pub fn new(alloc: Global, capacity: usize) -> Result<Memo, AllocError>
        requires { 1 ≤ capacity }
        ensures empty { IfOk result (λ memo. memo.entries ≡ []) }
        ensures capacity { IfOk result (λ memo. memo.capacity ≡ capacity) }
        ensures made { OnErr result ⊥ }
    {
        let rest = (capacity / 8).max(1);
        Ok(Memo {
            younger: Table::new(alloc),
            older: Table::new(alloc),
            first: IndexMap::new(alloc),
            operands: 0,
            room: capacity - rest,
            later: Cache::new(NonZeroUsize::new(rest).unwrap()),
        })
    }

    /// How many entries there are, which is no more than the capacity.
    pub fn len(&self) -> usize
        ensures len { result ≡ length self.now.entries }
        ensures bound { result ≤ self.now.capacity }
    {
        self.younger.len() + self.older.len() + self.first.len() + self.later.len()
    }

    /// Whether there are no entries.
    pub fn is_empty(&self) -> bool
        ensures { result ≡ (length self.now.entries == 0) }
    {
        self.len() == 0
    }

    // The ref that is remembered of two operands.
    #[inline(always)]
    pub(crate) fn get_pair(&mut self, pair: &Pair) -> Option<Ref>
        ensures found { IfSome result (λ root. Contains self.old.entries (entry pair.now.round (pair_operands pair.now) root)) }
        ensures kept { KeepsEntries self.old self.new }
        ensures capacity { self.new.capacity ≡ self.old.capacity }
    {
        let young = self.younger.get(*pair);
        if young.is_some() {
            return young;
        }
        if self.older.is_empty() && self.later.is_empty() {
            return None;
        }
        let old = self.older.get(*pair);
        if old.is_some() || self.later.is_empty() {
            return old;
        }
        self.get_late(pair)
    }

    // What the cache has of two operands. That is rare, so it stands apart and `get_pair` stays small.
    #[inline(never)]
    fn get_late(&mut self, pair: &Pair) -> Option<Ref>
        ensures found { IfSome result (λ root. Contains self.old.entries (entry pair.now.round (pair_operands pair.now) root)) }
        ensures kept { KeepsEntries self.old self.new }
        ensures capacity { self.new.capacity ≡ self.old.capacity }
    {
        let alloc = *self.first.allocator();
        self.later.get(&pair.key(alloc))
    }

    // Remembers the ref of two operands, unless memory runs out. Others may be forgotten for it, and then too.
    pub(crate) fn put_pair(&mut self, pair: Pair, root: Ref)
        ensures adds { Adds (entry pair.round (pair_operands pair) root) self.old self.new }
        ensures capacity { self.new.capacity ≡ self.old.capacity }
    {
        self.turn();
        self.add_pair(pair, root);
    }

    // Where the younger map has half of the room, it becomes the older one, and what that had is forgotten.
    fn turn(&mut self)
        ensures kept { KeepsEntries self.old self.new }
        ensures capacity { self.new.capacity ≡ self.old.capacity }
    {
        if self.younger.len() >= self.room / 2 {
            swap(&mut self.younger, &mut self.older);
            self.younger.clear();
        }
    }

    // Adds an entry of two operands.
    fn add_pair(&mut self, pair: Pair, root: Ref)
        ensures adds { Adds (entry pair.round (pair_operands pair) root) self.old self.new }
        ensures capacity { self.new.capacity ≡ self.old.capacity }
    {
        if self.younger.len() + self.older.len() + self.first.len() < self.room {
            self.younger.add(pair, root);
        } else {
            let alloc = *self.first.allocator();
            drop(self.later.put(alloc, pair.key(alloc), root));
        }
    }

    // The ref that is remembered.
    pub(crate) fn get(&mut self, key: &Key) -> Option<Ref>
        ensures found { IfSome result (λ root. Contains self.old.entries (entry key.now.round key.now.operands.items root)) }
        ensures kept { KeepsEntries self.old self.new }
        ensures capacity { self.new.capacity ≡ self.old.capacity }
    {
        let early = self.first.get(key).copied();
        if early.is_some() {
            return early;
        }
        self.later.get(key)
    }

    // Remembers the ref, unless memory runs out. Others may be forgotten for it, and then too.
    pub(crate) fn put(&mut self, key: Key, root: Ref)
        ensures adds { Adds (entry key.round key.operands.items root) self.old self.new }
        ensures capacity { self.new.capacity ≡ self.old.capacity }
    {
        self.forget_lists();
        self.add(key, root);
    }

    // Where the lists of operands are too long together, they are forgotten.
    fn forget_lists(&mut self)
        ensures kept { KeepsEntries self.old self.new }
        ensures capacity { self.new.capacity ≡ self.old.capacity }
    {
        if self.operands > MOST_OPERANDS {
            self.first.clear();
            self.operands = 0;
        }
    }

    // Adds an entry.
    fn add(&mut self, key: Key, root: Ref)
        ensures adds { Adds (entry key.round key.operands.items root) self.old self.new }
        ensures capacity { self.new.capacity ≡ self.old.capacity }
    {
        if self.first.len() + self.younger.len() + self.older.len() < self.room {
            self.operands = self.operands.saturating_add(key.operands.len());
            drop(self.first.insert(key, root));
        } else {
            let alloc = *self.first.allocator();
            drop(self.later.put(alloc, key, root));
        }
    }
}
