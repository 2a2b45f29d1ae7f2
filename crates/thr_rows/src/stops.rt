//! Whether some thread can run.
ghost use Rattle.std.specs.Prelude.{◌≡◌};
ghost use Rattle.std.specs.List.{list_any};
ghost use Rattle.thr_parts.specs.Dispatch.{can_run, some_can_run};

use crate::places::can_run;
use crate::rows::Rows;
use crate::seats::Entry;

/// One of these is ready or runs.
fn any_can_run(seats: &[Entry]) -> bool
    ensures { result ≡ list_any (λ e. can_run e.1.place) seats.now }
{
    seats.iter().any(|e| can_run(e.1.place))
}

impl Rows {
    /// Some thread is ready or runs (docs/machine.md, "Stops"). It looks at one seat at most.
    pub fn some_can_run(&self) -> bool
        ensures { result ≡ some_can_run self.now }
    {
        any_can_run(self.seats.able())
    }
}
