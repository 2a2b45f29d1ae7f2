//! What lies under the lock: the book, and the total of the turns that were counted.

ghost use Rattle.std.specs.Prelude.{◌≡◌, ◌+◌, ◌↔◌, true, false, IsSome, OnOk, OnErr, None, vec_len};
ghost use Rattle.std.specs.Coded.{codes};
ghost use Rattle.thr_syntax.specs.contracts.tree.Stmt as stmt;
ghost use Rattle.thr_syntax.specs.contracts.expr.Expr as expr;
ghost use Rattle.thr_values.specs.declared.event.Event.TheVariants as event;
ghost use Rattle.thr_machine.specs.Books.{IsOpen};
ghost use Rattle.thr_holds.specs.Runs.{IsOver, HasCause};
ghost use Rattle.thr_holds.specs.Holds.{GoesOn, Moves, IsStill, HasLeft, HasThread, HasMade, HasMoved, HasNothing, HasNoTurn};
ghost use Rattle.thr_holds.specs.declared.locked.Found.TheVariants as found;

use crate::count::{Count, Naming, sum_of};
use std::sync::Wait;
use std::sync::ledger::Book as Tally;
use thr_machine::book::Book;
use thr_values::number::NoMemory;

/// What a worker finds for its processor.
#[derive(Clone, Copy, Debug, PartialEq, Eq)]
pub enum Found {
    /// The book is stopped, or no memory was found.
    Over,
    /// The processor has a thread.
    Thread,
    /// It has none, and another event was made.
    Changed,
    /// There is nothing to do.
    Nothing,
}

/// What lies under the lock. The book is the one that is named, and as many turns were counted as it has made.
#[derive(Drop)]
pub struct Locked<N: Naming> {
    pub book: Book,
    total: Tally<N>,
    no_memory: bool,
    pub ghost over: { IsOver book N.script N.workers } by { Prim.hlevel (codes, stmt.the_row.coded, expr.the_row.coded) },
    pub ghost counted: { total.total ≡ book.turns },
    pub ghost cause: { HasCause book },
}

impl<N: Naming> Locked<N> {
    /// A book that was opened now, of which nothing was counted.
    pub fn new(book: Book, total: Tally<N>) -> Locked<N>
        requires over { IsOver book N.script N.workers }
        requires none { book.turns ≡ 0 }
        requires going { book.stopped ≡ None }
        requires total { total.total ≡ 0 }
    {
        Locked {
            book,
            total,
            no_memory: false,
        }
    }

    /// Makes the stop where one holds, and takes the memory for one event. The answer is whether an event may be made.
    fn opens(&mut self) -> bool
        ensures goes { result ≡ true → GoesOn self.old.book self.new.book }
        ensures memory { result ≡ true → self.new.no_memory ≡ false }
        ensures left { result ≡ false → HasLeft self.old.book self.new.book self.new.no_memory }
    {
        if self.no_memory || self.book.stopped().is_some() {
            return false;
        }
        if let Some(why) = self.book.stop_test() {
            self.book.stop(why);
            return false;
        }
        if self.book.make_room().is_err() {
            self.no_memory = true;
            return false;
        }
        true
    }

    /// Makes a dispatch at the processor, or else a move of the clock. The answer is whether one of them is legal.
    fn move_on(&mut self, p: u32) -> bool
        requires open { IsOpen self.old.book }
        ensures moves { result ≡ true → Moves p self.old.book self.new.book }
        ensures still { result ≡ false → IsStill p self.old.book × (self.new.book ≡ self.old.book) }
        ensures memory { self.new.no_memory ≡ self.old.no_memory }
    {
        if let Some(_taken) = self.book.dispatch(p) {
            return true;
        }
        self.book.clock()
    }

    /// Looks for a thread on the processor. Without one it makes a dispatch, or else a move of the clock.
    pub fn look(&mut self, p: u32) -> Found
        ensures over { result ≡ found.Over ↔ HasLeft self.old.book self.new.book self.new.no_memory }
        ensures thread { result ≡ found.Thread ↔ HasThread p self.old.book self.new.book self.new.no_memory }
        ensures changed { result ≡ found.Changed ↔ HasMoved p self.old.book self.new.book }
        ensures nothing { result ≡ found.Nothing ↔ HasNothing p self.old.book self.new.book self.new.no_memory }
    {
        if !self.opens() {
            return Found::Over;
        }
        if self.book.running(p).is_some() {
            return Found::Thread;
        }
        if self.move_on(p) {
            return Found::Changed;
        }
        Found::Nothing
    }

    /// Makes a turn of the processor's thread and counts it, where the processor still has one. The answer is whether it did.
    pub fn commit(&mut self, p: u32, mine: &mut Count<N>) -> bool
        ensures made { result ≡ true ↔ HasMade self.old.book self.new.book (event.Turn p) }
        ensures idle { result ≡ false ↔ HasNoTurn p self.old.book self.new.book self.new.no_memory }
        ensures one { result ≡ true → mine.new.turns ≡ mine.old.turns + 1 }
        ensures counted { self.new.book.turns + mine.old.turns ≡ self.old.book.turns + mine.new.turns }
    {
        if !self.opens() {
            return false;
        }
        if self.book.running(p).is_none() {
            return false;
        }
        let Locked { total, book, .. } = self;
        book.turn(p);
        let _made = book.turns();
        mine.add_one(total);
        true
    }

    /// Looks at each processor, and makes a turn of its thread where it has one. No clause says so, since `finish` asks for none.
    fn round(&mut self, workers: u32, mine: &mut Count<N>) {
        for p in 0..workers {
            if self.look(p) == Found::Thread {
                self.commit(p, mine);
            }
        }
    }

    /// Goes on alone until the book is stopped.
    pub fn finish<R: Wait>(
        &mut self,
        rt: &R,
        workers: u32,
        mine: &mut Count<N>,
    ) -> Result<(), NoMemory>
        ensures over { OnOk result (IsSome self.new.book.stopped) }
        ensures none { OnErr result (self.new.no_memory ≡ true) }
    {
        for _ in rt.forever() {
            if self.book.stopped().is_some() {
                return Ok(());
            }
            if self.no_memory {
                return Err(NoMemory);
            }
            self.round(workers, mine);
        }
        unreachable!()
    }

    /// The book, and what all have counted.
    pub fn gather(self, mine: Count<N>, counts: Vec<Count<N>>) -> (Book, u64)
        requires { vec_len counts + 1 ≡ N.parts }
        ensures book { result.0 ≡ self.book }
        ensures cause { HasCause result.0 }
        ensures counted { result.1 ≡ self.book.turns }
    {
        let Locked { book, total, .. } = self;
        let _made = book.turns();
        let counted = sum_of(total, mine, counts);
        (book, counted)
    }
}
