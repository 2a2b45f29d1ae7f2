//! The verdict on a journal.

ghost use Rattle.std.specs.Prelude.{◌≡◌, ◌↔◌, IfOk};
ghost use Rattle.std.specs.Option.{option_map};
ghost use Rattle.thr_model.specs.Histories.{Legal};
ghost use Rattle.thr_verdict.specs.FormedJournals.{FormedJournal};
ghost use Rattle.thr_verdict.specs.FirstWrong.{wrong_of};
ghost use Rattle.thr_lawful.specs.Laws.{MeetsLaws};
ghost use Rattle.thr_comparing.specs.Verdicts.{IsVerdict};
ghost use Rattle.thr_comparing.specs.Wrongs.{told};
ghost use Rattle.thr_verify.specs.Replays.{IsReplayed, IsLeft, IsPlaced};

use crate::replay::replay;
use std::alloc::Global;
use thr_comparing::comparing::Texts;
use thr_comparing::telling::differing;
use thr_comparing::verdict::Verdict;
use thr_comparing::wrong::Wrong;
use thr_exactness::laws::a_line_differs_exactly_where_the_history_is_not_legal;
use thr_lawful::laws::legal_histories_meet_the_laws;
use thr_machine::book::Book;
use thr_syntax::copy::copy_script;
use thr_syntax::journal::Journal;
use thr_values::number::NoMemory;

/// A book over the journal's script and workers, at the opening.
fn opened(alloc: Global, j: &Journal) -> Result<Book, NoMemory>
    requires { FormedJournal j.now }
    ensures at { IfOk result (IsReplayed j.now) }
    ensures left { IfOk result (IsLeft j.now) }
{
    let script = copy_script(alloc, &j.script)?;
    Book::new(alloc, script, j.workers)
}

/// The verdict, where this is what is wrong first.
fn judged(alloc: Global, j: &Journal, wrong: Option<Wrong>) -> Result<Verdict, NoMemory>
    requires formed { FormedJournal j.now }
    requires wrong { wrong_of j.now.script j.now.workers j.now.entries j.now.stop ≡ option_map told wrong }
    requires placed { IsPlaced j.now wrong }
    ensures { IfOk result (IsVerdict j.now) }
{
    match wrong {
        None => Ok(Verdict::Legal),
        Some(wrong) => {
            let differs = differing(alloc, j, wrong)?;
            Ok(Verdict::Illegal(differs))
        }
    }
}

/// The verdict on a journal that has its form, by the machine itself: it is replayed, event by event, and the lines of each
/// event are compared with the journal's.
pub fn verify(alloc: Global, j: &Journal) -> Result<Verdict, NoMemory>
    requires { FormedJournal j.now }
    ensures legal { IfOk result (λ v. (v ≡ Verdict.Legal) ↔ Legal j.now.script j.now.workers j.now.entries j.now.stop) }
    ensures first { IfOk result (IsVerdict j.now) }
    ensures laws { IfOk result (λ v. v ≡ Verdict.Legal → MeetsLaws j.now.script j.now.entries j.now.stop) }
{
    legal_histories_meet_the_laws();
    a_line_differs_exactly_where_the_history_is_not_legal();
    let mut book = opened(alloc, j)?;
    let mut texts = Texts::new(alloc);
    let wrong = replay(&mut texts, &mut book, j)?;
    judged(alloc, j, wrong)
}
