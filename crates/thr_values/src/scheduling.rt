//! Policies, ranks and cancelabilities of threads.

ghost use Rattle.std.specs.Prelude.{◌≡◌, ◌≤◌};
ghost use Rattle.thr_values.specs.Ranks.{rank_of};

/// A scheduling policy: SCHED_FIFO, SCHED_RR, SCHED_FG_NP or SCHED_BG_NP.
#[derive(Clone, Copy, Debug, PartialEq, Eq)]
pub enum Policy {
    Fifo,
    Rr,
    Fg,
    Bg,
}

/// What a thread lets a cancel do to it (docs/machine.md, "Cancels").
#[derive(Clone, Copy, Debug, PartialEq, Eq)]
pub struct Mode {
    /// A cancel is pending.
    pub pending: bool,
    /// General cancelability is on.
    pub general: bool,
    /// Asynchronous cancelability is on.
    pub asynchronous: bool,
}

/// The rank of a thread, by which the best of several is chosen: at most 231.
pub fn rank(policy: Policy, prio: u8) -> u16
    requires { prio ≤ 31 }
    ensures { result ≡ rank_of policy prio }
{
    let prio = u16::from(prio);
    match policy {
        Policy::Fifo | Policy::Rr => 200 + prio,
        Policy::Fg => 100 + prio,
        Policy::Bg => prio,
    }
}
