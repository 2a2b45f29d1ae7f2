//! What the layer above asks.
ghost use Rattle.std.specs.Prelude.{◌≡◌, ◌≤◌, ◌↔◌, IsTrue};
ghost use Rattle.thr_parts.specs.Dispatch.{running, some_can_run};
ghost use Rattle.thr_parts.specs.Threads.{live, record_at};
ghost use Rattle.thr_parts.specs.Cancels.{mode_at};
ghost use Rattle.thr_threads.specs.Living.{count_and_first};
ghost use Rattle.thr_model.specs.States.{frames_in};

use crate::services::Services;
use thr_values::number::Tid;
use thr_values::scheduling::Mode;

impl Services {
    // ---- processors and stops

    /// The thread that the processor has.
    pub fn running(&self, p: u32) -> Option<Tid>
        ensures { result ≡ running self.now.rows p }
    {
        self.rows.running(p)
    }

    /// Some thread is ready or runs (docs/machine.md, "Stops").
    pub fn some_can_run(&self) -> bool
        ensures { result ≡ some_can_run self.now.rows }
    {
        self.rows.some_can_run()
    }

    /// How many threads have not ended, and the least of them (docs/machine.md, "Stops").
    pub fn live(&self) -> (u32, Option<Tid>)
        ensures { result ≡ count_and_first (live self.now.threads) }
    {
        self.threads.live()
    }

    /// The time.
    pub fn clock(&self) -> i64
        ensures { result ≡ self.now.clock }
    {
        self.clock
    }

    // ---- a thread

    /// The mode of the thread; where it has no record, that of a new one.
    pub fn mode(&self, t: Tid) -> Mode
        ensures { result ≡ mode_at self.now.threads t }
    {
        self.threads.mode(t)
    }

    /// How many frames the thread's stack holds, 0 where it has no record (docs/machine.md, "Frames").
    pub fn frames(&self, t: Tid) -> u32
        ensures { result ≡ frames_in (record_at self.now.threads t) }
    {
        match self.threads.get(i64::from(t.0)) {
            None => 0,
            Some(th) => th.frames,
        }
    }

    // ---- room

    /// There is room for one value of a key more. Where there is none, `make_room` gives it.
    pub fn has_room(&self) -> bool
        ensures { IsTrue result ↔ (1 ≤ self.now.onces.room) }
    {
        self.onces.has_room()
    }
}
