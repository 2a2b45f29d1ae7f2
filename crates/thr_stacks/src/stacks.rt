//! The table of stacks. They stand in a slab, which gives its keys out again; numbers of threads lead to keys.
ghost use Rattle.std.specs.Prelude.{◌≡◌, true, is_some, length, option_copied, IfOk, IfNone, Some};
ghost use Rattle.std.specs.Option.{option_copied_mut};
ghost use Rattle.std.specs.Borrow.{sem};
ghost use Rattle.slab.specs.Slab.{ContainsKey, Updates, slab_len};
ghost use Rattle.thr_parts.specs.Tables.{none, get, has, put, cut};
ghost use Rattle.thr_parts.specs.Rows.{most};
ghost use Rattle.thr_tables.specs.Places.{has_place};
ghost use Rattle.thr_stacks.specs.Lends.{lends_stack};

use slab::Slab;
use std::alloc::Global;
use std::marker::Model;
use thr_frames::stack::Stack;
use thr_tables::Numbered;
use thr_values::number::{NoMemory, Tid};

/// How many threads have a stack at most.
const MOST: usize = 1024;

/// The stacks of threads, by their numbers (docs/machine.md, "What is left to do").
#[derive(Drop)]
pub struct Stacks {
    keys: Numbered<usize, MOST>,
    slab: Slab<Stack>,
}

impl Model for Stacks {
    ghost use Rattle.thr_frames.specs.Stacks.{StackView};
    ghost use Rattle.thr_parts.specs.Tables.{Table};

    ghost Value = { Table StackView };

    ghost use Rattle.thr_stacks.specs.Keys.{values_by, IsKept};

    ghost view = { λ a. values_by a.keys a.slab };

    ghost invariant = { λ a. IsKept a.keys a.slab };
}

/// The stack stands under the key in place of the one that stood there.
fn replace(slab: &mut Slab<Stack>, key: usize, stack: Stack)
    requires stands { ContainsKey slab.old key }
    ensures updates { Updates slab.old slab.new key (Some stack) }
    ensures as_many { slab_len slab.new ≡ slab_len slab.old }
    ensures capacity { slab.new.capacity ≡ slab.old.capacity }
{
    if let Some(place) = slab.get_mut(key) {
        *place = stack;
    }
}

impl Stacks {
    /// No thread has a stack. There is room for all, so that no later call takes memory; the memory of a stack comes with it.
    pub fn new(alloc: Global) -> Result<Stacks, NoMemory>
        ensures { IfOk result (λ stacks. stacks ≡ none) }
    {
        let keys = Numbered::new(alloc)?;
        let slab = match Slab::with_capacity(alloc, MOST) {
            Ok(slab) => slab,
            Err(_) => return Err(NoMemory),
        };
        Ok(Stacks { keys, slab })
    }

    /// How many threads have a stack.
    pub fn len(&self) -> usize
        ensures { result ≡ length self.now }
    {
        self.keys.len()
    }

    /// The thread's stack, lent.
    pub fn lend(&self, t: Tid) -> Option<&Stack>
        ensures value { option_copied result ≡ get self.now t.0 }
        ensures known { is_some result ≡ has self.now t.0 }
    {
        match self.keys.get(t) {
            None => None,
            Some(key) => self.slab.get(key),
        }
    }

    /// The thread's stack, lent for a turn, which works on it in place. What it is at the end stands in the table.
    pub fn lend_mut(&mut self, t: Tid) -> Option<&mut Stack>
        ensures* writes_back { sem 𝓛 (lends_stack self.entry t.0 result) }
        ensures value { option_copied_mut result ≡ get self.old t.0 }
        ensures known { is_some result ≡ has self.old t.0 }
    {
        match self.keys.get(t) {
            None => None,
            Some(key) => self.slab.get_mut(key),
        }
    }

    /// The thread has this stack from now on: a new thread's begins here.
    pub fn put(&mut self, t: Tid, stack: Stack)
        requires room { has_place self.old t.0 most ≡ true }
        ensures { self.new ≡ put self.old t.0 stack }
    {
        match self.keys.get(t) {
            Some(key) => replace(&mut self.slab, key, stack),
            None => {
                let key = self.slab.insert_reserved(stack);
                self.keys.put(t, key);
            }
        }
    }

    /// The thread has no stack from now on, and the answer is what it had: a thread that has ended gives its stack back.
    pub fn take(&mut self, t: Tid) -> Option<Stack>
        ensures value { result ≡ get self.old t.0 }
        ensures known { is_some result ≡ has self.old t.0 }
        ensures table { self.new ≡ cut self.old t.0 }
        ensures absent { IfNone result (self.new ≡ self.old) }
    {
        match self.keys.get(t) {
            None => None,
            Some(key) => {
                let stack = self.slab.remove(key);
                self.keys.cut(t);
                Some(stack)
            }
        }
    }
}
