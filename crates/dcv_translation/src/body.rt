// The parts of a body, which the action of its rule takes one after another.
ghost use Rattle.std.specs.Prelude.{◌≡◌, ◌↔◌, ◌≤◌, ◌<◌, ◌++◌, ◌∷◌, [], length, take, drop, reverse, IsSome, IfOk, OnOk};
ghost use Rattle.std.specs.Option.{option_to_list};

use std::alloc::{AllocError, Global};
use std::marker::Model;

/// What the symbols of a body stand for, from the first one on. One is the body of all rules in turn, so an action takes no memory for it.
#[derive(Drop)]
pub struct Body<P> {
    // from the last one to the first
    parts: Vec<P>,
}

impl<P> Model for Body<P> {
    ghost use Rattle.std.specs.Prelude.{List, reverse};

    ghost Value = { List P };

    ghost view = { λ body. reverse body.parts.items };
}

impl<P: Drop> Body<P> {
    // No parts.
    pub(crate) fn new(alloc: Global) -> Self
        ensures { result ≡ [] }
    {
        Body {
            parts: Vec::new(alloc),
        }
    }

    /// Takes the next part.
    pub fn next(&mut self) -> Option<P>
        ensures parts { self.old ≡ option_to_list result ++ self.new }
        ensures variant { IsSome result ↔ (0 < length self.old) }
    {
        self.parts.pop()
    }

    // Lets go of the parts that are left.
    fn empty(&mut self)
        ensures { self.new ≡ [] }
    {
        if !self.parts.is_empty() {
            self.parts.clear();
        }
    }

    // Takes the parts from the first one on off a stack, in the place of those that are left.
    pub(crate) fn refill(&mut self, stack: &mut Vec<P>, first: usize) -> Result<(), AllocError>
        requires { first ≤ length stack.old.items }
        ensures stack { OnOk result (stack.new.items ≡ take first stack.old.items) }
        ensures parts { OnOk result (self.new ≡ drop first stack.old.items) }
    {
        self.empty();
        self.parts.reserve(stack.len() - first)?;
        while first < stack.len() {
            self.parts.push_reserved(stack.take_last());
        }
        Ok(())
    }
}

/// A list that stands from its last element to its first, with one more before the first.
pub fn with_first<T: Drop>(first: T, mut others: Vec<T>) -> Result<Vec<T>, AllocError>
    ensures items { IfOk result (λ all. all.items ≡ others.items ++ first ∷ []) }
    ensures forwards { IfOk result (λ all. reverse all.items ≡ first ∷ reverse others.items) }
{
    others.push(first)?;
    Ok(others)
}

/// A copy of what is in the next part of a body, by patterns behind a reference. It owns nothing, so the part is forgotten and not dropped.
#[macro_export]
macro_rules! copy_of_next {
    ($parts:expr, $($pattern:pat => $copy:expr),+) => {{
        let next = $parts.next();
        let copy = match &next {
            $($pattern => $copy,)+
            _ => unreachable!(),
        };
        forget(next);
        copy
    }};
}

/// The part of a list, of this kind of `Part`, with one more before its first. With `?` the list would be moved once more.
#[macro_export]
macro_rules! list_with_first {
    ($kind:ident, $first:expr, $others:expr) => {
        match $crate::with_first($first, $others) {
            Ok(all) => Ok(Part::$kind(all)),
            Err(error) => Err(error),
        }
    };
}

/// The next part of a body, which is of this kind of `Part`.
#[macro_export]
macro_rules! next_of {
    ($parts:expr, $kind:ident) => {
        match $parts.next() {
            Some(Part::$kind(part)) => part,
            _ => unreachable!(),
        }
    };
}
