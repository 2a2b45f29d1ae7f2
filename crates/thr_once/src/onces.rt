//! The calls on once blocks and keys.
ghost use Rattle.std.specs.Prelude.{◌≡◌, ◌+◌, ◌≤◌, ◌↔◌, IfOk, IfNone, OnOk, OnErr, IsTrue};
ghost use Rattle.thr_values.specs.declared.reply.Reply.TheVariants.{Einval};
ghost use Rattle.thr_parts.specs.Keys.{no_onces, keycreate, setspecific, getspecific, next_destructor};
ghost use Rattle.thr_parts.specs.OnceBlocks.{enter, done, undone};
ghost use Rattle.thr_tables.specs.Ranges.{IsName};
ghost use Rattle.thr_rows.specs.Room.{HasRoomToWait, HasArrivalLeft};
ghost use Rattle.thr_once.specs.Room.{HasRoomForValue};

use crate::keys::Keys;
use std::alloc::Global;
use std::marker::Model;
use thr_parts::once::OnceBlock;
use thr_parts::row::RowId;
use thr_rows::Rows;
use thr_tables::Slots;
use thr_values::number::{NameId, NoMemory, Tid};
use thr_values::reply::Reply;

/// The once blocks that are run or done, and the keys that are made (docs/machine.md, "Once blocks" and "Keys"). Contracts
/// see their part of the state, and for how many more values of keys there is room.
#[derive(Drop)]
pub struct Onces {
    blocks: Slots<OnceBlock>,
    keys: Keys,
}

impl Model for Onces {
    ghost use Rattle.thr_once.specs.Views.{OncesView};

    ghost Value = { OncesView };

    ghost view = { λ a. record { state = record { blocks = a.blocks; keys = a.keys.keys }; room = a.keys.room } };
}

impl Onces {
    /// No once block is run, and no key is made.
    pub fn new(alloc: Global) -> Result<Onces, NoMemory>
        ensures { IfOk result (λ onces. onces.state ≡ no_onces) }
    {
        let blocks = Slots::new(alloc)?;
        let keys = Keys::new(alloc)?;
        Ok(Onces { blocks, keys })
    }

    /// Gives room for one value of a key more, which `setspecific` needs. It is refused only where there is none, and then
    /// nothing changes.
    pub fn make_room(&mut self) -> Result<(), NoMemory>
        ensures room { OnOk result (1 ≤ self.new.room) }
        ensures same { self.new.state ≡ self.old.state }
        ensures refused { OnErr result (self.new ≡ self.old) }
        ensures full { OnErr result (self.old.room ≡ 0) }
        ensures kept { self.old.room ≤ self.new.room }
    {
        self.keys.make_room()
    }

    /// There is room for one value of a key more.
    pub fn has_room(&self) -> bool
        ensures { IsTrue result ↔ HasRoomForValue self.now }
    {
        self.keys.has_room()
    }

    // ---- once blocks

    /// A thread enters a once block. The second part of the answer says that it is to run the routine.
    pub fn enter(&mut self, o: NameId, t: Tid, rank: u16, rows: &mut Rows) -> (Reply, bool)
        requires known { IsName o }
        requires place { HasRoomToWait rows.old t }
        requires arrival { HasArrivalLeft rows.old }
        ensures call { record { reply = result.0; onces = self.new.state; rows = rows.new; runs = result.1 } ≡ enter self.old.state rows.old o t rank }
        ensures room { self.new.room ≡ self.old.room }
    {
        match self.blocks.get(o) {
            None => {
                self.blocks.put(o, OnceBlock::Running(t));
                (Reply::Done, true)
            }
            Some(block) => match block {
                OnceBlock::Done => (Reply::Done, false),
                OnceBlock::Running(runner) => {
                    if runner.0 == t.0 {
                        return (Reply::Edeadlk, false);
                    }
                    rows.block(RowId::Once(o), t, rank);
                    (Reply::Blocks, false)
                }
            },
        }
    }

    /// The routine of a block that is being run has ended. The layer above takes the waiters out of the block's row.
    pub fn done(&mut self, o: NameId)
        requires known { IsName o }
        ensures call { self.new.state ≡ done self.old.state o }
        ensures room { self.new.room ≡ self.old.room }
    {
        self.blocks.put(o, OnceBlock::Done);
    }

    /// The routine of a block that is being run was unwound. The best waiter, taken out of its row, holds the block from now
    /// on; without one the block is as not run.
    pub fn undone(&mut self, o: NameId, rows: &mut Rows) -> Option<Tid>
        requires known { IsName o }
        ensures call { record { onces = self.new.state; rows = rows.new; runner = result } ≡ undone self.old.state rows.old o }
        ensures room { self.new.room ≡ self.old.room }
    {
        match rows.best(RowId::Once(o)) {
            None => {
                self.blocks.cut(o);
                None
            }
            Some(next) => {
                self.blocks.put(o, OnceBlock::Running(next));
                let _ = rows.take_out(next);
                Some(next)
            }
        }
    }

    // ---- keys

    /// A key is made, with the destructor that is there.
    pub fn keycreate(&mut self, k: NameId, destructor: Option<NameId>) -> Reply
        requires known { IsName k }
        ensures call { record { reply = result; onces = self.new.state } ≡ keycreate self.old.state k destructor }
        ensures room { self.new.room ≡ self.old.room }
    {
        if self.keys.is_made(k) {
            return Reply::Ebusy;
        }
        self.keys.make(k, destructor);
        Reply::Done
    }

    /// A thread gives a key its value.
    pub fn setspecific(&mut self, k: NameId, t: Tid, value: i64) -> Reply
        requires known { IsName k }
        requires place { HasRoomForValue self.old }
        ensures call { record { reply = result; onces = self.new.state } ≡ setspecific self.old.state k t value }
        ensures room { self.old.room ≤ self.new.room + 1 }
        ensures refused { result ≡ Einval → self.new ≡ self.old }
    {
        if !self.keys.is_made(k) {
            return Reply::Einval;
        }
        self.keys.set(k, t, value);
        Reply::Done
    }

    /// A thread asks for its value of a key.
    pub fn getspecific(&self, k: NameId, t: Tid) -> Reply
        requires known { IsName k }
        ensures { result ≡ getspecific self.now.state k t }
    {
        match self.keys.get(k, t) {
            None => Reply::Einval,
            Some(value) => Reply::Value(value),
        }
    }

    /// The destructor that an ending thread calls next, as key, routine and value; the thread's value of the key becomes 0.
    pub fn next_destructor(&mut self, t: Tid) -> Option<(NameId, NameId, i64)>
        ensures call { record { onces = self.new.state; call = result } ≡ next_destructor self.old.state t }
        ensures room { self.old.room ≤ self.new.room }
        ensures none { IfNone result (self.new ≡ self.old) }
    {
        match self.keys.next_call(t) {
            None => None,
            Some(call) => {
                self.keys.clear(call.0, t);
                Some(call)
            }
        }
    }
}
