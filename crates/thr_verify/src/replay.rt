//! A journal on the machine.

ghost use Rattle.std.specs.Prelude.{◌≡◌, ◌<◌, length, None, IfOk};
ghost use Rattle.std.specs.Option.{option_map};
ghost use Rattle.thr_machine.specs.Books.{IsReached, stop_of};
ghost use Rattle.thr_verdict.specs.FirstWrong.{wrong_of};
ghost use Rattle.thr_comparing.specs.Wrongs.{told};
ghost use Rattle.thr_verify.specs.Replays.{IsReplayed, IsLeft, IsPlaced, StepsSo};

use crate::events::make;
use thr_comparing::comparing::{Texts, first_other};
use thr_comparing::stops::{stopped_early, where_it_holds};
use thr_comparing::wrong::{Right, Wrong};
use thr_counts::laws::lines_stay_below_the_limit;
use thr_machine::book::Book;
use thr_syntax::journal::Journal;
use thr_values::number::NoMemory;

/// What comes of one event.
#[derive(Clone, Copy)]
pub(crate) enum Step {
    /// The event's lines stand in the journal.
    Goes,
    /// The history ends, or this is wrong first.
    Ends(Option<Wrong>),
}

/// Makes the event that the journal's next line names, and compares its lines.
fn make_next(texts: &mut Texts, book: &mut Book, j: &Journal) -> Result<Step, NoMemory>
    requires at { IsReplayed j.now book.old }
    requires open { stop_of book.old ≡ None }
    requires reached { IsReached book.old }
    requires more { length book.old.entries < length j.now.entries }
    ensures { IfOk result (StepsSo j.now book.old book.new) }
{
    lines_stay_below_the_limit();
    let entries = j.entries.as_slice();
    let count = book.entries().len();
    let entry = entries[count];
    book.make_room()?;
    if !make(book, j.workers, entry.who) {
        return Ok(Step::Ends(Some(Wrong {
            place: count as u32 + 1,
            right: None,
        })));
    }
    let made = book.entries();
    match first_other(texts, j.script.names.as_slice(), made, entries, count)? {
        None => Ok(Step::Goes),
        Some(i) => Ok(Step::Ends(Some(Wrong {
            place: i as u32 + 1,
            right: Some(Right::Line(made[i])),
        }))),
    }
}

/// Makes one event and compares its lines, or the stop where the journal or the machine ends.
fn next_step(texts: &mut Texts, book: &mut Book, j: &Journal) -> Result<Step, NoMemory>
    requires { IsReplayed j.now book.old }
    ensures { IfOk result (StepsSo j.now book.old book.new) }
{
    let count = book.entries().len();
    let at_end = count >= j.entries.len();
    match book.stop_test() {
        Some(holds) => Ok(Step::Ends(where_it_holds(holds, j.stop, count as u32, at_end))),
        None if at_end => Ok(Step::Ends(stopped_early(j.stop, count as u32))),
        None => make_next(texts, book, j),
    }
}

/// What is wrong first in a journal on a book that was opened on its script.
pub(crate) fn replay(
    texts: &mut Texts,
    book: &mut Book,
    j: &Journal,
) -> Result<Option<Wrong>, NoMemory>
    requires at { IsReplayed j.now book.old }
    requires left { IsLeft j.now book.old }
    ensures wrong { IfOk result (λ w. wrong_of j.now.script j.now.workers j.now.entries j.now.stop ≡ option_map told w) }
    ensures placed { IfOk result (IsPlaced j.now) }
{
    loop {
        match next_step(texts, book, j)? {
            Step::Goes => {}
            Step::Ends(wrong) => return Ok(wrong),
        }
    }
}
