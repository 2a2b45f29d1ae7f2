//! The calls on pipes.
ghost use Rattle.std.specs.Prelude.{◌≡◌, ◌+◌, ◌<◌, ◌^◌, true, []};
ghost use Rattle.thr_parts.specs.Tables.{names};
ghost use Rattle.thr_parts.specs.Rows.{has_room};
ghost use Rattle.thr_parts.specs.Pipes.{read, write};
ghost use Rattle.thr_parts.specs.Closing.{close_out};
ghost use Rattle.thr_pipes.specs.Agreement.{WritersAgree};
ghost use Rattle.thr_model.specs.States.{rank_of};
ghost use Rattle.thr_model.specs.Calls.{reads, writes, closes};
ghost use Rattle.thr_services.specs.Ready.{OwersStand};
ghost use Rattle.thr_services.specs.Answers.{Answers};

use crate::answer::{Answer, plain};
use crate::freeing::free_row;
use crate::services::Services;
use crate::{ready, replies};
use thr_parts::row::RowId;
use thr_values::number::{NameId, Tid};
use thr_values::reply::Reply;

impl Services {
    /// A thread takes the front item; the writer whose item enters then is ready and owes `ok`.
    pub(crate) fn read(&mut self, t: Tid, p: NameId) -> Answer
        requires known { p.0 < names }
        requires room { has_room self.old.rows t ≡ true }
        requires arrival { self.old.rows.next_arrival + 1 < 2 ^ 64 }
        requires owers { OwersStand self.old.debts self.old.rows }
        ensures { Answers self.old self.new result [] (λ s st. reads st (read st.pipes st.rows p t (rank_of st t))) }
    {
        let _seats = self.rows.len();
        let _debts = self.debts.len();
        let rank = self.threads.rank(t);
        let (said, relieved) = self.pipes.read(p, t, rank, &mut self.rows);
        ready::wake(
            relieved,
            Reply::Done,
            &self.threads,
            &mut self.rows,
            &mut self.debts,
        );
        plain(said)
    }

    /// A thread hands an item to the best waiting reader, which is ready and owes it, or puts it into the pipe.
    pub(crate) fn write(&mut self, t: Tid, p: NameId, item: i64) -> Answer
        requires known { p.0 < names }
        requires room { has_room self.old.rows t ≡ true }
        requires arrival { self.old.rows.next_arrival + 1 < 2 ^ 64 }
        requires writers { WritersAgree self.old.pipes self.old.rows }
        requires owers { OwersStand self.old.debts self.old.rows }
        ensures { Answers self.old self.new result [] (λ s st. writes st item (write st.pipes st.rows p item t (rank_of st t))) }
    {
        let _seats = self.rows.len();
        let _debts = self.debts.len();
        let rank = self.threads.rank(t);
        let (said, reader) = self.pipes.write(p, item, t, rank, &mut self.rows);
        ready::wake(
            reader,
            Reply::Value(item),
            &self.threads,
            &mut self.rows,
            &mut self.debts,
        );
        plain(said)
    }

    /// A pipe takes no more items. The readers that waited owe `eof`, and the writers EPIPE.
    pub(crate) fn close(&mut self, p: NameId) -> Answer
        requires known { p.0 < names }
        requires arrival { self.old.rows.next_arrival + 2048 < 2 ^ 64 }
        requires owers { OwersStand self.old.debts self.old.rows }
        ensures { Answers self.old self.new result [] (λ s st. closes st (close_out (rank_of st) st.pipes st.rows p)) }
    {
        let said = self.pipes.close(p);
        if !replies::is_done(said) {
            return plain(said);
        }
        free_row(
            RowId::Reader(p),
            Reply::Eof,
            &self.threads,
            &mut self.rows,
            &mut self.debts,
        );
        free_row(
            RowId::Writer(p),
            Reply::Epipe,
            &self.threads,
            &mut self.rows,
            &mut self.debts,
        );
        plain(said)
    }
}
