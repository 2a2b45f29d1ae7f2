//! Slices, and who gives its processor up after a turn.
ghost use Rattle.std.specs.Prelude.{◌≡◌, ◌||◌, ◌&&◌, if◌then◌else◌};
ghost use Rattle.thr_parts.specs.Dispatch.{is_spent, slice_after, a_turn_later, whole_slice, outranks, matches_rank};

use crate::seats::Entry;
use thr_parts::row::Place;

/// How many turns a thread has that takes a processor or begins a new slice.
pub const WHOLE_SLICE: u8 = 8;

/// The policy isn't SCHED_FIFO, and nothing is left of the slice after this turn.
#[tactic(auto, using(std::proofs::lemmas::Bool::Decides::nat_tests))]
pub fn is_spent(fifo: bool, slice: u8) -> bool
    ensures { result ≡ is_spent fifo slice }
{
    !fifo && slice <= 1
}

/// What the slice is a turn later.
#[tactic(auto, using(std::proofs::lemmas::Bool::Decides::nat_tests))]
fn slice_later(fifo: bool, slice: u8) -> u8
    ensures { result ≡ (if is_spent fifo slice then whole_slice else slice_after fifo slice) }
{
    if fifo {
        return slice;
    }
    if slice <= 1 {
        return WHOLE_SLICE;
    }
    slice - 1
}

/// The place a turn later, of a thread that stays on its processor.
pub fn a_turn_later(fifo: bool, place: Place) -> Place
    ensures { result ≡ a_turn_later fifo place }
{
    match place {
        Place::Runs(p, slice) => Place::Runs(p, slice_later(fifo, slice)),
        Place::Stands(_, _) => place,
    }
}

/// The best ready thread has greater rank, or equal rank where the slice is spent.
#[tactic(auto, using(std::proofs::lemmas::Bool::Decides::nat_tests))]
pub fn yields_to(best: Option<Entry>, rank: u16, spent: bool) -> bool
    ensures { result ≡ (outranks rank best || (spent && matches_rank rank best)) }
{
    match best {
        None => false,
        Some(entry) => rank < entry.1.rank || (spent && entry.1.rank == rank),
    }
}
