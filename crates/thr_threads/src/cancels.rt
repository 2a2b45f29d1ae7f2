//! Cancelabilities of threads, and what a cancel does.
ghost use Rattle.std.specs.Prelude.{◌≡◌};
ghost use Rattle.thr_parts.specs.Cancels.{mode_at, set_mode, state_number, setcancel, setasynccancel, effect_on, marks, cancel, deliver};

use crate::threads::Threads;
use thr_parts::thread::Thread;
use thr_values::number::Tid;
use thr_values::reply::{Effect, Reply};
use thr_values::scheduling::Mode;

/// 1 for a cancelability that is on, and 0 for one that is off.
fn state_number(on: bool) -> i64
    ensures { result ≡ state_number on }
{
    if on { 1 } else { 0 }
}

/// What a cancel does to a thread that waits at a point or doesn't.
fn effect_on(th: Thread, at_point: bool) -> Effect
    ensures { result ≡ effect_on th at_point }
{
    if th.ended.is_some() {
        return Effect::Ended;
    }
    if th.mode.pending {
        return Effect::Merged;
    }
    if th.mode.general && at_point {
        return Effect::Wakes;
    }
    Effect::Pending
}

/// With this effect the cancel is pending from now on.
fn marks(effect: Effect) -> bool
    ensures { result ≡ marks effect }
{
    match effect {
        Effect::Ended | Effect::Merged => false,
        Effect::Pending | Effect::Wakes => true,
    }
}

impl Threads {
    /// The mode of the thread; where it has no record, that of a new one.
    pub fn mode(&self, t: Tid) -> Mode
        ensures { result ≡ mode_at self.now t }
    {
        match self.records.get(t) {
            None => Mode {
                pending: false,
                general: true,
                asynchronous: false,
            },
            Some(th) => th.mode,
        }
    }

    /// The thread gets this mode.
    pub fn set_mode(&mut self, t: Tid, mode: Mode)
        ensures { self.new ≡ set_mode self.old t mode }
    {
        match self.records.get(t) {
            None => {}
            Some(th) => self.records.put(t, Thread { mode, ..th }),
        }
    }

    /// The thread sets its general cancelability; the reply is the old state.
    pub fn setcancel(&mut self, t: Tid, general: bool) -> Reply
        ensures { record { reply = result; threads = self.new } ≡ setcancel self.old t general }
    {
        let mode = self.mode(t);
        self.set_mode(t, Mode { general, ..mode });
        Reply::Value(state_number(mode.general))
    }

    /// The thread sets its asynchronous cancelability; the reply is the old state.
    pub fn setasynccancel(&mut self, t: Tid, asynchronous: bool) -> Reply
        ensures { record { reply = result; threads = self.new } ≡ setasynccancel self.old t asynchronous }
    {
        let mode = self.mode(t);
        self.set_mode(
            t,
            Mode {
                asynchronous,
                ..mode
            },
        );
        Reply::Value(state_number(mode.asynchronous))
    }

    /// The thread that the number names, which waits at a point or doesn't, is cancelled. With the effect `Wakes` the layer
    /// above takes it out of its wait.
    pub fn cancel(&mut self, target: i64, at_point: bool) -> Reply
        ensures { record { reply = result; threads = self.new } ≡ cancel self.old target at_point }
    {
        match self.find(target) {
            None => Reply::Esrch,
            Some(th) => {
                let effect = effect_on(th, at_point);
                if marks(effect) {
                    let mode = Mode {
                        pending: true,
                        ..th.mode
                    };
                    self.set(target, Thread { mode, ..th });
                }
                Reply::Effect(effect)
            }
        }
    }

    /// The thread's cancel is delivered: it isn't pending any more.
    pub fn deliver(&mut self, t: Tid)
        ensures { self.new ≡ deliver self.old t }
    {
        let mode = self.mode(t);
        self.set_mode(
            t,
            Mode {
                pending: false,
                ..mode
            },
        );
    }
}
