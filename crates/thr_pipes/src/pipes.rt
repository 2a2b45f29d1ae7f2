//! The calls on pipes.
ghost use Rattle.std.specs.Prelude.{◌≡◌, ◌∷◌, [], ◌++◌, true, IfOk};
ghost use Rattle.thr_parts.specs.Tables.{put};
ghost use Rattle.thr_parts.specs.Replies.{is_value};
ghost use Rattle.thr_parts.specs.Moves.{block_in, take_out_if};
ghost use Rattle.thr_parts.specs.declared.row.RowId.TheVariants as row;
ghost use Rattle.thr_parts.specs.Pipes.{first_pipes, pipe_at, has_room, with_items, behind, item_of, writing_without, read_reply, read, write};
ghost use Rattle.thr_parts.specs.Closing.{as_closed, close, pull_out};
ghost use Rattle.thr_tables.specs.Ranges.{IsName};
ghost use Rattle.thr_rows.specs.Room.{HasRoomToWait, HasArrivalLeft};
ghost use Rattle.thr_pipes.specs.Agreement.{WritersAgree};
ghost use Rattle.thr_pipes.specs.Opening.{FitTables};
ghost use Rattle.thr_pipes.specs.Entering.{entering};

use crate::pipe::Pipe;
use crate::waits::MOST_WRITERS;
use crate::{opening, replies, waits};
use std::alloc::Global;
use std::marker::Model;
use thr_parts::pipe::Writing;
use thr_parts::row::RowId;
use thr_rows::Rows;
use thr_syntax::tree::Item;
use thr_tables::{Numbered, Slots};
use thr_values::number::{NameId, NoMemory, Tid};
use thr_values::reply::Reply;

/// The declared pipes, and of each thread that waits as a writer its pipe and its item (docs/machine.md, "Pipes").
#[derive(Drop)]
pub struct Pipes {
    pipes: Slots<Pipe>,
    writing: Numbered<Writing, MOST_WRITERS>,
}

impl Model for Pipes {
    ghost use Rattle.thr_parts.specs.Pipes.{Pipes};

    ghost Value = { Pipes };

    ghost view = { λ a. record { pipes = a.pipes; writing = a.writing } };
}

impl Pipes {
    /// The declared pipes are open and empty, and nobody waits. There is room for the items of all pipes and for all writers,
    /// so that no later call takes memory.
    pub fn new(alloc: Global, items: &[Item]) -> Result<Pipes, NoMemory>
        requires known { FitTables items.now }
        ensures { IfOk result (λ pipes. pipes ≡ first_pipes items.now) }
    {
        let pipes = opening::declared(alloc, items)?;
        let writing = Numbered::new(alloc)?;
        Ok(Pipes { pipes, writing })
    }

    // ---- one pipe

    /// The pipe is open.
    fn is_open(&self, p: NameId) -> bool
        requires known { IsName p }
        ensures { result ≡ (pipe_at self.now p).is_open }
    {
        match self.pipes.lend(p) {
            None => false,
            Some(pipe) => pipe.is_open(),
        }
    }

    /// The pipe isn't full.
    fn has_room(&self, p: NameId) -> bool
        requires known { IsName p }
        ensures { result ≡ has_room (pipe_at self.now p) }
    {
        match self.pipes.lend(p) {
            None => false,
            Some(pipe) => pipe.has_room(),
        }
    }

    /// What reading the pipe replies.
    fn read_reply(&self, p: NameId) -> Reply
        requires known { IsName p }
        ensures { result ≡ read_reply (pipe_at self.now p).items (pipe_at self.now p).is_open }
    {
        match self.pipes.lend(p) {
            None => Reply::Eof,
            Some(pipe) => pipe.read_reply(),
        }
    }

    /// The item enters the pipe, behind all others.
    fn enter(&mut self, p: NameId, item: i64)
        requires known { IsName p }
        requires room { has_room (pipe_at self.old p) ≡ true }
        ensures { self.new ≡ record { pipes = put self.old.pipes p.0 (with_items (pipe_at self.old p) ((pipe_at self.old p).items ++ item ∷ [])); writing = self.old.writing } }
    {
        match self.pipes.take(p) {
            None => {}
            Some(pipe) => {
                let mut pipe = pipe;
                pipe.enter(item);
                self.pipes.put(p, pipe);
            }
        }
    }

    /// The front item leaves the pipe, and then the item that is there enters.
    fn pass(&mut self, p: NameId, item: Option<i64>)
        requires known { IsName p }
        requires front { is_value (read_reply (pipe_at self.old p).items (pipe_at self.old p).is_open) ≡ true }
        ensures { self.new ≡ record { pipes = put self.old.pipes p.0 (with_items (pipe_at self.old p) (behind (pipe_at self.old p).items ++ entering item)); writing = self.old.writing } }
    {
        match self.pipes.take(p) {
            None => {}
            Some(pipe) => {
                let mut pipe = pipe;
                pipe.pass(item);
                self.pipes.put(p, pipe);
            }
        }
    }

    /// The open pipe takes no more items.
    fn shut(&mut self, p: NameId)
        requires known { IsName p }
        requires open { (pipe_at self.old p).is_open ≡ true }
        ensures { self.new ≡ record { pipes = put self.old.pipes p.0 (as_closed (pipe_at self.old p)); writing = self.old.writing } }
    {
        match self.pipes.take(p) {
            None => {}
            Some(pipe) => {
                let mut pipe = pipe;
                pipe.close();
                self.pipes.put(p, pipe);
            }
        }
    }

    // ---- waits

    /// The item with which the thread that is there waits.
    fn item_of(&self, t: Option<Tid>) -> Option<i64>
        ensures { entering result ≡ item_of self.now t }
    {
        match t {
            None => None,
            Some(t) => match self.writing.get(t) {
                None => None,
                Some(writing) => Some(writing.item),
            },
        }
    }

    /// The thread that is there leaves its wait and its row.
    fn relieve(&mut self, t: Option<Tid>, rows: &mut Rows)
        ensures pipes { self.new ≡ record { pipes = self.old.pipes; writing = writing_without self.old.writing t } }
        ensures rows { rows.new ≡ take_out_if rows.old t }
    {
        match t {
            None => {}
            Some(t) => {
                self.writing.cut(t);
                let _ = rows.take_out(t);
            }
        }
    }

    /// The thread leaves its processor, if it runs, and begins to wait with its item.
    fn wait(&mut self, p: NameId, item: i64, t: Tid, rank: u16, rows: &mut Rows)
        requires place { HasRoomToWait rows.old t }
        requires arrival { HasArrivalLeft rows.old }
        requires agrees { WritersAgree self.old rows.old }
        ensures pipes { self.new ≡ record { pipes = self.old.pipes; writing = put self.old.writing t.0 (record { pipe = p; item = item }) } }
        ensures rows { rows.new ≡ block_in rows.old (row.Writer p) t rank }
    {
        let _seats = rows.len();
        let _writers = self.writing.len();
        rows.block(RowId::Writer(p), t, rank);
        self.writing.put(t, Writing { pipe: p, item });
    }

    // ---- calls

    /// A thread takes the front item; then the item of the best waiting writer enters, which is the second part of the answer
    /// and has left its row.
    pub fn read(&mut self, p: NameId, t: Tid, rank: u16, rows: &mut Rows) -> (Reply, Option<Tid>)
        requires known { IsName p }
        requires place { HasRoomToWait rows.old t }
        requires arrival { HasArrivalLeft rows.old }
        ensures { record { reply = result.0; pipes = self.new; rows = rows.new; relieved = result.1 } ≡ read self.old rows.old p t rank }
    {
        let said = self.read_reply(p);
        if replies::is_blocks(said) {
            rows.block(RowId::Reader(p), t, rank);
            return (said, None);
        }
        if !replies::is_value(said) {
            return (said, None);
        }
        let writer = rows.best(RowId::Writer(p));
        let item = self.item_of(writer);
        self.pass(p, item);
        self.relieve(writer, rows);
        (said, writer)
    }

    /// A thread hands an item to the best waiting reader, which is the second part of the answer and has left its row, or else
    /// puts it into the pipe, and waits where that is full.
    pub fn write(
        &mut self,
        p: NameId,
        value: i64,
        t: Tid,
        rank: u16,
        rows: &mut Rows,
    ) -> (Reply, Option<Tid>)
        requires known { IsName p }
        requires place { HasRoomToWait rows.old t }
        requires arrival { HasArrivalLeft rows.old }
        requires agrees { WritersAgree self.old rows.old }
        ensures { record { reply = result.0; pipes = self.new; rows = rows.new; reader = result.1 } ≡ write self.old rows.old p value t rank }
    {
        if !self.is_open(p) {
            return (Reply::Epipe, None);
        }
        match rows.best(RowId::Reader(p)) {
            Some(reader) => {
                let _ = rows.take_out(reader);
                (Reply::Done, Some(reader))
            }
            None => {
                if self.has_room(p) {
                    self.enter(p, value);
                    return (Reply::Done, None);
                }
                self.wait(p, value, t, rank, rows);
                (Reply::Blocks, None)
            }
        }
    }

    /// A pipe takes no more items. It keeps those in it, and those of its waiting writers are dropped. The layer above takes
    /// its readers and its writers out of their rows.
    pub fn close(&mut self, p: NameId) -> Reply
        requires known { IsName p }
        ensures { record { reply = result; pipes = self.new } ≡ close self.old p }
    {
        if !self.is_open(p) {
            return Reply::Einval;
        }
        self.shut(p);
        waits::drop_writers(&mut self.writing, p);
        Reply::Done
    }

    /// The thread leaves its wait as a reader or as a writer, whose item is dropped. Where it has none the answer is false,
    /// and nothing changes.
    pub fn pull_out(&mut self, t: Tid, rows: &mut Rows) -> bool
        ensures { record { pipes = self.new; rows = rows.new; stood = result } ≡ pull_out self.old rows.old t }
    {
        if !waits::is_pipe_row(rows.row_of(t)) {
            return false;
        }
        self.relieve(Some(t), rows);
        true
    }
}
