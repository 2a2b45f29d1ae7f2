//! Gates that count and that hold.

use std::sync::atomic::{AtomicU64, Ordering};
use std::thread::yield_now;
use thr_workers::gate::{Gate, Place};

/// Counts its calls.
#[derive(Drop)]
pub(super) struct Counting {
    committed: AtomicU64,
    prepared: AtomicU64,
}

impl Counting {
    pub(super) fn new() -> Counting {
        Counting {
            committed: AtomicU64::new(0),
            prepared: AtomicU64::new(0),
        }
    }

    /// How many workers have passed at Committed.
    pub(super) fn committed(&self) -> u64 {
        self.committed.load(Ordering::SeqCst)
    }

    /// How many workers have passed at Prepared.
    pub(super) fn prepared(&self) -> u64 {
        self.prepared.load(Ordering::SeqCst)
    }
}

impl Gate for Counting {
    fn at(&self, _worker: u32, place: Place) {
        match place {
            Place::Claimed => {}
            Place::Prepared => {
                self.prepared.fetch_add(1, Ordering::SeqCst);
            }
            Place::Committed => {
                self.committed.fetch_add(1, Ordering::SeqCst);
            }
        }
    }
}

/// How many calls pass before a worker is held.
const PASSED: u64 = 100;

/// How often a worker that is held looks for another.
const TRIES: u64 = 50_000_000;

/// No worker was held so far.
const FREE: u64 = 0;

/// A worker came while another was held.
const MET: u64 = 100;

/// The worker that was held has met nobody.
const LEFT: u64 = 101;

/// Lets some calls pass, and then holds the first worker that comes to Claimed until another comes there.
#[derive(Drop)]
pub(super) struct Holding {
    calls: AtomicU64,
    /// Free, met or left, or else one more than the number of the worker that is held.
    stage: AtomicU64,
}

impl Holding {
    pub(super) fn new() -> Holding {
        Holding {
            calls: AtomicU64::new(0),
            stage: AtomicU64::new(FREE),
        }
    }

    /// Whether a worker came to Claimed while another was held there.
    pub(super) fn has_met(&self) -> bool {
        self.stage.load(Ordering::SeqCst) == MET
    }

    /// Goes from one stage to another, where it is at the first. The answer is at which it was.
    fn step(&self, from: u64, to: u64) -> u64 {
        match self
            .stage
            .compare_exchange(from, to, Ordering::SeqCst, Ordering::SeqCst)
        {
            Ok(was) | Err(was) => was,
        }
    }

    /// Holds the worker until another has come.
    fn hold(&self, me: u64) {
        for _try in 0..TRIES {
            if self.has_met() {
                return;
            }
            yield_now();
        }
        self.step(me, LEFT);
    }
}

impl Gate for Holding {
    fn at(&self, worker: u32, place: Place) {
        if place != Place::Claimed || self.calls.fetch_add(1, Ordering::SeqCst) < PASSED {
            return;
        }
        let me = u64::from(worker) + 1;
        let was = self.step(FREE, me);
        if was == FREE {
            self.hold(me);
        } else if was < MET && was != me {
            self.step(was, MET);
        }
    }
}
