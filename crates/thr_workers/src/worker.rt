//! The workers.

ghost use Rattle.std.specs.Prelude.{◌≡◌, ◌+◌, ◌<◌, ◌≤◌, ◌^◌, IsSome, IfOk, IfSome, None, length};
ghost use Rattle.thr_text.specs.Reading.{Formed};
ghost use Rattle.thr_model.specs.Histories.{Legal};
ghost use Rattle.thr_lawful.specs.Laws.{MeetsLaws};
ghost use Rattle.thr_holds.specs.Runs.{IsOver, HasCause, HasTurns};

use crate::gate::{Gate, Place};
use std::alloc::Global;
use std::marker::Brand;
use std::sync::ledger::Blank;
use std::sync::{Condvar, Mutex, Wait};
use std::thread;
use std::thread::Threads;
use thr_holds::count::{Count, Naming, counts_of};
use thr_holds::locked::{Found, Locked};
use thr_lawful::laws::legal_histories_meet_the_laws;
use thr_machine::book::Book;
use thr_syntax::tree::Script;
use thr_values::number::NoMemory;

/// What the workers share: the book under its lock, and where they wait until it was changed.
#[derive(Drop)]
struct Monitor<N: Naming> {
    locked: Mutex<Locked<N>>,
    changed: Condvar,
}

/// The steps of a worker, each of which makes at most one event, in one hold of the lock.
trait Steps<N: Naming> {
    fn look<R: Wait>(&self, rt: &R, p: u32) -> Found;

    fn commit<R: Wait>(&self, rt: &R, p: u32, mine: &mut Count<N>) -> bool;
}

impl<N: Naming> Steps<N> for Monitor<N> {
    /// Looks for a thread on the processor, and tells the others where the book was changed or is left. Where there is nothing
    /// to do it waits until the book was changed, and looks again in the hold in which it wakes.
    fn look<R: Wait>(&self, rt: &R, p: u32) -> Found {
        let mut locked = self.locked.lock(rt);
        for _ in rt.forever() {
            match locked.look(p) {
                Found::Nothing => locked = self.changed.wait(rt, locked),
                Found::Thread => return Found::Thread,
                found => {
                    drop(locked);
                    self.changed.notify_all();
                    return found;
                }
            }
        }
        unreachable!()
    }

    /// Makes a turn of the processor's thread, where it still has one, and tells the others.
    fn commit<R: Wait>(&self, rt: &R, p: u32, mine: &mut Count<N>) -> bool {
        let made = self.locked.lock(rt).commit(p, mine);
        if made {
            self.changed.notify_all();
        }
        made
    }
}

/// Serves one processor until the book is stopped, or no memory is found.
fn serve<N: Naming, R: Wait, G: Gate, D: Steps<N>>(
    rt: &R,
    monitor: &D,
    gate: &G,
    p: u32,
    mine: &mut Count<N>,
) {
    for _ in rt.forever() {
        match monitor.look(rt, p) {
            Found::Over => return,
            Found::Thread => {
                gate.at(p, Place::Claimed);
                if monitor.commit(rt, p, mine) {
                    gate.at(p, Place::Committed);
                }
            }
            Found::Changed | Found::Nothing => {}
        }
    }
}

/// Serves a processor for each count, in threads where the runtime makes some, and returns once all have left.
fn serve_all<N: Naming + Send + Sync, R: Threads + Wait + Sync, G: Gate + Sync, D: Steps<N> + Sync>(
    rt: &R,
    monitor: &D,
    gate: &G,
    counts: &mut [Count<N>],
)
    requires { (1 ≤ length counts.old) × (length counts.old < 2 ^ 32) }
{
    let workers = counts.len();
    thread::for_each_mut(
        rt,
        counts,
        workers,
        &|p, mine| { serve(rt, monitor, gate, p as u32, mine) },
    );
}

/// Has each processor of the book served, and goes on alone once all workers have left.
fn run_named<N: Naming + Send + Sync, R: Threads + Wait + Sync, G: Gate + Sync>(
    rt: &R,
    alloc: Global,
    blank: Blank,
    book: Book,
    workers: u32,
    gate: &G,
) -> Result<(Book, u64), NoMemory>
    requires name { blank.name ≡ N.name }
    requires parts { blank.parts ≡ N.parts }
    requires one_each { blank.parts ≡ workers + 1 }
    requires some { 1 ≤ workers }
    requires over { IsOver book N.script N.workers }
    requires opened { book.turns ≡ 0 }
    requires going { book.stopped ≡ None }
    ensures stopped { IfOk result (λ r. IsSome r.0.stopped) }
    ensures over { IfOk result (λ r. IsOver r.0 N.script N.workers) }
    ensures legal { IfOk result (λ r. IfSome r.0.stopped (λ why. Legal N.script N.workers r.0.entries why)) }
    ensures cause { IfOk result (λ r. HasCause r.0) }
    ensures counted { IfOk result (λ r. r.1 ≡ r.0.turns) }
    ensures turns { IfOk result (λ r. HasTurns r.0 r.1) }
{
    let (total, mut all) = blank.open::<N>();
    let mut counts = counts_of(alloc, workers, &mut all)?;
    let mut mine = Count::new(all);
    let monitor = Monitor {
        locked: Mutex::new(Locked::new(book, total)),
        changed: Condvar::new(),
    };
    serve_all(rt, &monitor, gate, counts.as_mut_slice());
    let mut locked = monitor.locked.into_inner();
    locked.finish(rt, workers, &mut mine)?;
    let (book, counted) = locked.gather(mine, counts);
    let _ = (book.stopped(), book.turns());
    Ok((book, counted))
}

/// Runs the script on so many processors to its stop. The answer is the stopped book, whose history is legal, and how many
/// turns were counted. Workers pass the gate without the lock. No clause says that there are several threads, or who makes a
/// turn. It may never return, since workers wait for one another.
pub fn run_workers<R: Threads + Wait + Sync, G: Gate + Sync>(
    rt: &R,
    alloc: Global,
    script: Script,
    workers: u32,
    gate: &G,
) -> Result<(Book, u64), NoMemory>
    requires formed { Formed script }
    requires some { 1 ≤ workers }
    requires few { workers ≤ 16 }
    ensures stopped { IfOk result (λ r. IsSome r.0.stopped) }
    ensures over { IfOk result (λ r. IsOver r.0 script workers) }
    ensures legal { IfOk result (λ r. IfSome r.0.stopped (λ why. Legal script workers r.0.entries why)) }
    ensures laws { IfOk result (λ r. IfSome r.0.stopped (MeetsLaws script r.0.entries)) }
    ensures cause { IfOk result (λ r. HasCause r.0) }
    ensures counted { IfOk result (λ r. r.1 ≡ r.0.turns) }
    ensures turns { IfOk result (λ r. HasTurns r.0 r.1) }
{
    legal_histories_meet_the_laws();
    let book = Book::new(alloc, script, workers)?;
    let blank = Blank::new(u64::from(workers) + 1);
    run_named::<Brand, R, G>(rt, alloc, blank, book, workers, gate)
}
