//! The events that the lines of a journal name.

ghost use Rattle.std.specs.Prelude.{◌≡◌, true, false, None, Some};
ghost use Rattle.thr_parts.specs.Dispatch.{running};
ghost use Rattle.thr_machine.specs.Books.{IsOpen, IsReached};
ghost use Rattle.thr_verdict.specs.FirstWrong.{processor_of, made_at};
ghost use Rattle.thr_verify.specs.Replays.{MakesNamed};

use thr_machine::book::Book;
use thr_model::laws::states_stay_canonical;
use thr_processors::laws::processors_have_one_thread;
use thr_values::history::Who;
use thr_values::number::Tid;

/// Whether the processor has this thread.
fn has_thread(book: &Book, p: u32, t: Tid) -> bool
    ensures yes { result ≡ true → running book.now.state.rows p ≡ Some t }
    ensures no { result ≡ false → running book.now.state.rows p ≡ Some t → ⊥ }
{
    match book.running(p) {
        Some(u) => u.0 == t.0,
        None => false,
    }
}

/// The processor that a thread runs on.
fn processor_of(book: &Book, workers: u32, t: Tid) -> Option<u32>
    requires reached { IsReached book.now }
    requires workers { workers ≡ book.now.workers }
    ensures { result ≡ processor_of book.now.state.rows t }
{
    processors_have_one_thread();
    states_stay_canonical();
    for p in 0..workers {
        if has_thread(book, p, t) {
            return Some(p);
        }
    }
    None
}

/// Makes the turn of the processor that runs a thread. The answer is false where none does, and then nothing changes.
fn make_turn(book: &mut Book, workers: u32, t: Tid) -> bool
    requires open { IsOpen book.old }
    requires reached { IsReached book.old }
    requires workers { workers ≡ book.old.workers }
    ensures made { result ≡ true → MakesNamed book.old book.new (Who.Thread t) }
    ensures none { result ≡ false → (made_at book.old.script book.old.workers book.old.state (Who.Thread t) ≡ None) × (book.new ≡ book.old) }
{
    match processor_of(book, workers, t) {
        None => false,
        Some(p) => {
            processors_have_one_thread();
            book.turn(p);
            true
        }
    }
}

/// Makes the event that the who of a line names. The answer is false where it isn't legal, and then nothing changes.
pub(crate) fn make(book: &mut Book, workers: u32, who: Who) -> bool
    requires open { IsOpen book.old }
    requires reached { IsReached book.old }
    requires workers { workers ≡ book.old.workers }
    ensures made { result ≡ true → MakesNamed book.old book.new who }
    ensures none { result ≡ false → (made_at book.old.script book.old.workers book.old.state who ≡ None) × (book.new ≡ book.old) }
{
    match who {
        Who::Proc(p) => book.dispatch(p).is_some(),
        Who::Thread(t) => make_turn(book, workers, t),
        Who::Clock => book.clock(),
    }
}
