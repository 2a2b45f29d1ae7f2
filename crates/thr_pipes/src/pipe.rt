//! One pipe.
ghost use Rattle.std.specs.Prelude.{◌≡◌, ◌∷◌, [], ◌++◌, true, IfOk};
ghost use Rattle.thr_parts.specs.Replies.{is_value};
ghost use Rattle.thr_parts.specs.Pipes.{new_pipe, with_items, behind, read_reply, has_room};
ghost use Rattle.thr_parts.specs.Closing.{as_closed};
ghost use Rattle.thr_pipes.specs.Entering.{entering};

use circular_buffer::HeapCircularBuffer;
use std::alloc::Global;
use std::marker::Model;
use thr_values::number::NoMemory;
use thr_values::reply::Reply;

/// A pipe: whether it is open, and its items, the front first (docs/machine.md, "Pipes"). The items have their room from the
/// opening on, so that none that enters takes memory.
#[derive(Drop)]
pub struct Pipe {
    is_open: bool,
    items: HeapCircularBuffer<i64>,
}

impl Model for Pipe {
    ghost use Rattle.thr_parts.specs.Pipes.{Pipe};

    ghost Value = { Pipe };

    ghost view = { λ a. record { capacity = a.items.capacity; is_open = a.is_open; items = a.items.items } };
}

impl Pipe {
    /// An open and empty pipe that takes so many items.
    pub fn new(alloc: Global, capacity: u32) -> Result<Pipe, NoMemory>
        ensures { IfOk result (λ pipe. pipe ≡ new_pipe capacity) }
    {
        match HeapCircularBuffer::with_capacity(alloc, capacity as usize) {
            Ok(items) => Ok(Pipe {
                is_open: true,
                items,
            }),
            Err(_) => Err(NoMemory),
        }
    }

    /// The pipe is open.
    pub fn is_open(&self) -> bool
        ensures { result ≡ self.now.is_open }
    {
        self.is_open
    }

    /// The pipe isn't full.
    #[tactic(auto, using(std::proofs::lemmas::Bool::Decides::nat_tests))]
    pub fn has_room(&self) -> bool
        ensures { result ≡ has_room self.now }
    {
        self.items.len() < self.items.capacity()
    }

    /// What reading the pipe replies.
    pub fn read_reply(&self) -> Reply
        ensures { result ≡ read_reply self.now.items self.now.is_open }
    {
        match self.items.front() {
            Some(value) => Reply::Value(*value),
            None => {
                if self.is_open {
                    return Reply::Blocks;
                }
                Reply::Eof
            }
        }
    }

    /// The item enters, behind all others.
    pub fn enter(&mut self, item: i64)
        requires room { has_room self.old ≡ true }
        ensures { self.new ≡ with_items self.old (self.old.items ++ item ∷ []) }
    {
        let _ = self.items.push_back(item);
    }

    /// The front item leaves, and then the item that is there enters.
    pub fn pass(&mut self, item: Option<i64>)
        requires front { is_value (read_reply self.old.items self.old.is_open) ≡ true }
        ensures { self.new ≡ with_items self.old (behind self.old.items ++ entering item) }
    {
        let _count = self.items.len();
        let _ = self.items.pop_front();
        match item {
            None => {}
            Some(item) => self.enter(item),
        }
    }

    /// The pipe takes no more items and keeps those in it.
    pub fn close(&mut self)
        ensures { self.new ≡ as_closed self.old }
    {
        self.is_open = false;
    }
}
