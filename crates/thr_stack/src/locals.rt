//! Parameters and locals.

ghost use Rattle.std.specs.Prelude.{◌≡◌, ◌+◌, ◌≤◌, ◌++◌, [], length, pos, slice_get, slice_set, unwrap_or, IfOk};
ghost use Rattle.thr_remainder.specs.Starts.{first_locals};
ghost use Rattle.thr_stack.specs.LocalLists.{closed};

use std::alloc::{AllocError, Global};
use std::marker::Model;

/// The parameters and locals of calls, in the order in which the calls were made. Those of the innermost call begin at `first`,
/// and there is room for `most`.
#[derive(Drop)]
pub struct Locals {
    values: Vec<i64>,
    first: usize,
    most: usize,
}

impl Model for Locals {
    ghost use Rattle.std.specs.Prelude.{◌≤◌, length, take, drop};
    ghost use Rattle.std.specs.Vec.{vec_capacity};
    ghost use Rattle.thr_stack.specs.LocalLists.{LocalsView};

    ghost Value = { LocalsView };

    ghost view = { λ a. record { here = drop a.first a.values.items; outer = take a.first a.values.items; most = a.most } };

    ghost invariant = { λ a. (a.first ≤ length a.values.items) × (a.most ≤ vec_capacity a.values) };
}

impl Locals {
    /// No call, with room for so many values.
    pub fn new(alloc: Global, most: usize) -> Result<Locals, AllocError>
        ensures { IfOk result (λ locals. locals ≡ record { here = []; outer = []; most = most }) }
    {
        let values = Vec::with_capacity(alloc, most)?;
        Ok(Locals {
            values,
            first: 0,
            most,
        })
    }

    /// How many the innermost call has.
    #[inline(always)]
    pub fn count(&self) -> usize
        ensures { result ≡ length self.now.here }
    {
        self.values.len() - self.first
    }

    /// The local of the innermost call at this place, and 0 where there is none.
    #[inline(always)]
    pub fn get(&self, p: u8) -> i64
        ensures { result ≡ unwrap_or (slice_get self.now.here p) (pos 0) }
    {
        match self.values.get(self.first + p as usize) {
            Some(n) => *n,
            None => 0,
        }
    }

    /// Sets the local of the innermost call at this place, if there is one.
    #[inline(always)]
    pub fn set(&mut self, p: u8, n: i64)
        ensures { self.new ≡ record self.old { here = slice_set self.old.here p n } }
    {
        let at = self.first + p as usize;
        if at < self.values.len() {
            self.values[at] = n;
        }
    }

    /// A call begins whose routine has so many: the argument for its parameter, and 0.
    #[inline(always)]
    pub fn open(&mut self, count: u8, n: i64)
        requires { length self.old.outer + length self.old.here + count ≤ self.old.most }
        ensures { self.new ≡ record self.old { here = first_locals count n; outer = self.old.outer ++ self.old.here } }
    {
        let first = self.values.len();
        for _ in 0..count {
            self.values.push_reserved(0);
        }
        self.first = first;
        self.set(0, n);
    }

    /// All calls are over.
    pub fn clear(&mut self)
        ensures { self.new ≡ record self.old { here = []; outer = [] } }
    {
        self.values.clear();
        self.first = 0;
    }

    /// The innermost call is over. The call outside it has so many.
    #[inline(always)]
    pub fn close(&mut self, count: u8)
        requires { count ≤ length self.old.outer }
        ensures { self.new ≡ closed count self.old }
    {
        self.values.truncate(self.first);
        self.first -= count as usize;
    }
}
