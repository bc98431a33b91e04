// A cache of what lists of operands were merged into, which is made with its first entry: most memos have room for all that they are given, and
// an empty cache takes two pieces of memory. To a proof it is the cache that it will be, with no entries as long as there is none.
ghost use Rattle.std.specs.Prelude.{◌≡◌, ◌≤◌, ◌==◌, [], length, OnOk, OnErr, IfOk};
ghost use Rattle.std.specs.Map.{lookup};
ghost use Rattle.std.specs.NonZero.{non_zero_usize_get};
ghost use Rattle.lru.specs.LruCache.{lru_cache, promoted, put_entries};

use crate::keys::Key;
use dcv_arena::Ref;
use lru::LruCache;
use std::alloc::{AllocError, Global};
use std::marker::Model;
use std::num::NonZeroUsize;

#[derive(Drop)]
pub(crate) struct Cache {
    // the cache, once it has an entry
    made: Option<LruCache<Key, Ref>>,
    // how many entries it may have
    capacity: NonZeroUsize,
}

impl Model for Cache {
    ghost use Rattle.std.specs.Prelude.{◌≡◌, IfSome};
    ghost use Rattle.std.specs.NonZero.{non_zero_usize_get};
    ghost use Rattle.lru.specs.LruCache.{LruCache as Entries};
    ghost use Rattle.dcv_arena.specs.declared.nodes.Ref.{Ref as AnyRef};
    ghost use Rattle.dcv_apply.specs.declared.keys.Key.{Key as AnyKey};
    ghost use Rattle.dcv_apply.specs.Remembered.{cached};

    ghost Value = { Entries AnyKey AnyRef };

    ghost view = { λ cache. cached cache.made (non_zero_usize_get cache.capacity) };

    ghost invariant = { λ cache. IfSome cache.made (λ made. made.cap ≡ non_zero_usize_get cache.capacity) };
}

impl Cache {
    // A cache for this many entries at most.
    pub(crate) fn new(capacity: NonZeroUsize) -> Cache
        ensures { result ≡ lru_cache [] (non_zero_usize_get capacity) }
    {
        Cache {
            made: None,
            capacity,
        }
    }

    pub(crate) fn len(&self) -> usize
        ensures len { result ≡ length self.now.entries }
        ensures bound { result ≤ self.now.cap }
    {
        match &self.made {
            Some(cache) => cache.len(),
            None => 0,
        }
    }

    pub(crate) fn is_empty(&self) -> bool
        ensures { result ≡ (length self.now.entries == 0) }
    {
        self.len() == 0
    }

    // The ref of a key, which is then the one that was used last.
    pub(crate) fn get(&mut self, key: &Key) -> Option<Ref>
        ensures value { result ≡ lookup (⟦<Key as PartialEq>⟧.eq key.now) self.old.entries }
        ensures entries { self.new ≡ lru_cache (promoted (⟦<Key as PartialEq>⟧.eq key.now) self.old.entries) self.old.cap }
    {
        match &mut self.made {
            Some(cache) => found(cache, key),
            None => None,
        }
    }

    // Puts a ref under a key. What was used least lately goes where the cache is full.
    pub(crate) fn put(&mut self, alloc: Global, key: Key, root: Ref) -> Result<(), AllocError>
        ensures entries { OnOk result (self.new ≡ lru_cache (put_entries ⟦<Key as PartialEq>⟧.eq self.old key root) self.old.cap) }
        ensures err { OnErr result (self.new ≡ self.old) }
    {
        match &mut self.made {
            Some(cache) => {
                cache.put(key, root)?;
            }
            None => {
                self.made = Some(made_with(alloc, self.capacity, key, root)?);
            }
        }
        Ok(())
    }
}

// The ref of a key in a cache that was made.
fn found(cache: &mut LruCache<Key, Ref>, key: &Key) -> Option<Ref>
    ensures value { result ≡ lookup (⟦<Key as PartialEq>⟧.eq key.now) cache.old.entries }
    ensures entries { cache.new ≡ lru_cache (promoted (⟦<Key as PartialEq>⟧.eq key.now) cache.old.entries) cache.old.cap }
{
    cache.get(key).copied()
}

// A cache with one entry. Each is made once, so this stands apart and `put` stays small.
#[inline(never)]
fn made_with(
    alloc: Global,
    capacity: NonZeroUsize,
    key: Key,
    root: Ref,
) -> Result<LruCache<Key, Ref>, AllocError>
    ensures { IfOk result (λ cache. cache ≡ lru_cache (put_entries ⟦<Key as PartialEq>⟧.eq (lru_cache [] (non_zero_usize_get capacity)) key root) (non_zero_usize_get capacity)) }
{
    let mut cache = LruCache::sparse(alloc, capacity)?;
    cache.put(key, root)?;
    Ok(cache)
}
