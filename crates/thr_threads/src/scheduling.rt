//! Policies and priorities of threads.
ghost use Rattle.std.specs.Prelude.{◌≡◌};
ghost use Rattle.thr_parts.specs.Scheduling.{policy_number, getprio, getscheduler, setprio, setscheduler};

use crate::numbers;
use crate::threads::Threads;
use thr_parts::thread::Thread;
use thr_values::reply::Reply;
use thr_values::scheduling::Policy;

/// The number of a policy.
fn policy_number(policy: Policy) -> i64
    ensures { result ≡ policy_number policy }
{
    match policy {
        Policy::Fifo => 0,
        Policy::Rr => 1,
        Policy::Fg => 2,
        Policy::Bg => 3,
    }
}

impl Threads {
    /// The priority of the thread that the number names.
    pub fn getprio(&self, target: i64) -> Reply
        ensures { result ≡ getprio self.now target }
    {
        match self.find(target) {
            None => Reply::Esrch,
            Some(th) => Reply::Value(i64::from(th.prio)),
        }
    }

    /// The policy of the thread that the number names.
    pub fn getscheduler(&self, target: i64) -> Reply
        ensures { result ≡ getscheduler self.now target }
    {
        match self.find(target) {
            None => Reply::Esrch,
            Some(th) => Reply::Value(policy_number(th.policy)),
        }
    }

    /// The thread that the number names gets a priority; the reply is the old one. The layer above gives the thread its new
    /// rank where it stands or runs.
    pub fn setprio(&mut self, target: i64, prio: i64) -> Reply
        ensures { record { reply = result; threads = self.new } ≡ setprio self.old target prio }
    {
        match self.find(target) {
            None => Reply::Esrch,
            Some(th) => match numbers::as_prio(prio) {
                None => Reply::Einval,
                Some(prio) => {
                    self.set(target, Thread { prio, ..th });
                    Reply::Value(i64::from(th.prio))
                }
            },
        }
    }

    /// The thread that the number names gets a policy and a priority; the reply is the old policy. The layer above gives the
    /// thread its new rank where it stands or runs.
    pub fn setscheduler(&mut self, target: i64, policy: Policy, prio: i64) -> Reply
        ensures { record { reply = result; threads = self.new } ≡ setscheduler self.old target policy prio }
    {
        match self.find(target) {
            None => Reply::Esrch,
            Some(th) => match numbers::as_prio(prio) {
                None => Reply::Einval,
                Some(prio) => {
                    self.set(target, Thread { policy, prio, ..th });
                    Reply::Value(policy_number(th.policy))
                }
            },
        }
    }
}
