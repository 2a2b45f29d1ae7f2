//! The calls on attribute cells.
ghost use Rattle.std.specs.Prelude.{◌≡◌};
ghost use Rattle.thr_parts.specs.Scheduling.{attr_create, attr_delete, attr_setsched, attr_setprio, attr_setinherit, attr_setstack};
ghost use Rattle.thr_tables.specs.Ranges.{IsName};

use crate::numbers;
use crate::threads::{self, Threads};
use thr_parts::thread::Attr;
use thr_values::number::NameId;
use thr_values::reply::Reply;
use thr_values::scheduling::Policy;

impl Threads {
    /// A cell is made.
    pub fn attr_create(&mut self, a: NameId) -> Reply
        requires known { IsName a }
        ensures { record { reply = result; threads = self.new } ≡ attr_create self.old a }
    {
        match self.attrs.get(a) {
            Some(_) => Reply::Ebusy,
            None => {
                self.attrs.put(a, threads::new_attr());
                Reply::Done
            }
        }
    }

    /// A cell is not made any more.
    pub fn attr_delete(&mut self, a: NameId) -> Reply
        requires known { IsName a }
        ensures { record { reply = result; threads = self.new } ≡ attr_delete self.old a }
    {
        match self.attrs.get(a) {
            None => Reply::Einval,
            Some(_) => {
                self.attrs.cut(a);
                Reply::Done
            }
        }
    }

    /// A cell gets a policy.
    pub fn attr_setsched(&mut self, a: NameId, policy: Policy) -> Reply
        requires known { IsName a }
        ensures { record { reply = result; threads = self.new } ≡ attr_setsched self.old a policy }
    {
        match self.attrs.get(a) {
            None => Reply::Einval,
            Some(cell) => {
                self.attrs.put(a, Attr { policy, ..cell });
                Reply::Done
            }
        }
    }

    /// A cell gets a priority.
    pub fn attr_setprio(&mut self, a: NameId, prio: i64) -> Reply
        requires known { IsName a }
        ensures { record { reply = result; threads = self.new } ≡ attr_setprio self.old a prio }
    {
        match self.attrs.get(a) {
            None => Reply::Einval,
            Some(cell) => match numbers::as_prio(prio) {
                None => Reply::Einval,
                Some(prio) => {
                    self.attrs.put(a, Attr { prio, ..cell });
                    Reply::Done
                }
            },
        }
    }

    /// A cell says whether a thread has its maker's policy and priority.
    pub fn attr_setinherit(&mut self, a: NameId, inherits: bool) -> Reply
        requires known { IsName a }
        ensures { record { reply = result; threads = self.new } ≡ attr_setinherit self.old a inherits }
    {
        match self.attrs.get(a) {
            None => Reply::Einval,
            Some(cell) => {
                self.attrs.put(a, Attr { inherits, ..cell });
                Reply::Done
            }
        }
    }

    /// A cell gets a stack size, counted in frames.
    pub fn attr_setstack(&mut self, a: NameId, frames: i64) -> Reply
        requires known { IsName a }
        ensures { record { reply = result; threads = self.new } ≡ attr_setstack self.old a frames }
    {
        match self.attrs.get(a) {
            None => Reply::Einval,
            Some(cell) => match numbers::as_stack_size(frames) {
                None => Reply::Einval,
                Some(frames) => {
                    self.attrs.put(a, Attr { frames, ..cell });
                    Reply::Done
                }
            },
        }
    }
}
