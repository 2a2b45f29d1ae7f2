//! The frames of a stack, with the locals of its calls.

ghost use Rattle.std.specs.Prelude.{List, ◌≡◌, ◌+◌, ◌<◌, ◌≤◌, ◌^◌, ◌↔◌, [], ◌∷◌, length, pos, slice_get, unwrap_or, IfOk, IsTrue, IfSome, IfNone, MatchOption};
ghost use Rattle.thr_stack.specs.declared.frame.Frame.{Frame};
ghost use Rattle.thr_stack.specs.FrameLists.{caught_among, innermost, below, set_in, AtOnce, HasCalled, IsNoCall};

use crate::frame::{Frame, Kind};
use crate::locals::Locals;
use std::alloc::{AllocError, Global};
use std::marker::Model;
use thr_values::exception::{CANCEL_E, Exc};

/// The most locals that a routine has, its parameter among them.
const MOST_LOCALS: usize = 16;

/// Frames, the innermost first, and the locals of their calls. At most `size` of them fit, and there is room for `most`.
#[derive(Drop)]
pub struct Frames {
    frames: Vec<Frame>,
    locals: Locals,
    size: usize,
    most: usize,
}

impl Model for Frames {
    ghost use Rattle.std.specs.Prelude.{List, ◌≤◌, ◌*◌, length, reverse};
    ghost use Rattle.std.specs.Vec.{vec_capacity};
    ghost use Rattle.thr_stack.specs.FrameLists.{FramesView};
    ghost use Rattle.thr_stack.specs.LocalLists.{calls_of, FitsAll};

    ghost Value = { FramesView };

    ghost view = { λ a. record { items = reverse a.frames.items; calls = calls_of a.locals (reverse a.frames.items); size = a.size; most = a.most } };

    ghost invariant = { λ a. (length a.frames.items ≤ a.size) × (a.size ≤ a.most) × (a.most ≤ vec_capacity a.frames) × (16 * a.most ≤ a.locals.most) × FitsAll a.locals (reverse a.frames.items) };
}

impl Frames {
    /// No frame, with room for `size`.
    pub fn new(alloc: Global, size: usize) -> Result<Frames, AllocError>
        requires { size < 2 ^ 32 }
        ensures { IfOk result (λ frames. frames ≡ record { items = []; calls = []; size = size; most = size }) }
    {
        let frames = Vec::with_capacity(alloc, size)?;
        let locals = Locals::new(alloc, MOST_LOCALS * size)?;
        Ok(Frames {
            frames,
            locals,
            size,
            most: size,
        })
    }

    /// From now on so many frames fit.
    pub fn set_size(&mut self, size: usize)
        requires items { length self.old.items ≤ size }
        requires most { size ≤ self.old.most }
        ensures { self.new ≡ record self.old { size = size } }
    {
        self.size = size;
    }

    /// How many frames more fit.
    pub fn free(&self) -> usize
        ensures { result + length self.now.items ≡ self.now.size }
    {
        self.size - self.frames.len()
    }

    /// Whether no frame more fits.
    pub fn is_full(&self) -> bool
        ensures full { IsTrue result ↔ (length self.now.items ≡ self.now.size) }
        ensures within { length self.now.items ≤ self.now.size }
    {
        self.frames.len() == self.size
    }

    /// Whether no frame is left.
    pub fn is_empty(&self) -> bool
        ensures { IsTrue result ↔ (self.now.items ≡ []) }
    {
        self.frames.is_empty()
    }

    /// Whether the innermost frame is a once block's.
    pub fn at_once(&self) -> bool
        ensures { AtOnce self.now.items result }
    {
        match self.top() {
            Some(frame) => match frame.kind {
                Kind::Once { .. } => true,
                _ => false,
            },
            None => false,
        }
    }

    /// The innermost frame.
    fn top(&self) -> Option<&Frame>
        ensures { MatchOption result (self.now.items ≡ []) (λ frame. (rest : List Frame) × (self.now.items ≡ frame.now ∷ rest)) }
    {
        self.frames.last()
    }

    /// Puts a frame that is no call's inside all others.
    pub fn push(&mut self, frame: Frame)
        requires room { length self.old.items < self.old.size }
        requires no_call { IsNoCall frame.kind }
        ensures { self.new ≡ record self.old { items = frame ∷ self.old.items } }
    {
        self.frames.push_reserved(frame);
    }

    /// Puts the frame of a call inside all others. Its routine has so many locals, and this argument for its parameter.
    pub fn call(&mut self, place: Option<u8>, back: u32, count: u8, n: i64)
        requires few { count ≤ 16 }
        requires room { length self.old.items < self.old.size }
        ensures { HasCalled place back count n self.old self.new }
    {
        let kind = Kind::Call {
            place,
            count: self.locals.count() as u8,
        };
        self.frames.push_reserved(Frame { kind, back });
        self.locals.open(count, n);
    }

    /// The local of the innermost call at this place, and 0 where there is none.
    #[inline(always)]
    pub fn local(&self, p: u8) -> i64
        ensures { result ≡ unwrap_or (slice_get (innermost self.now.calls) p) (pos 0) }
    {
        self.locals.get(p)
    }

    /// Sets the local of the innermost call at this place, if there is one.
    #[inline(always)]
    pub fn set_local(&mut self, p: u8, n: i64)
        ensures { self.new ≡ record self.old { calls = set_in self.old.calls p n } }
    {
        self.locals.set(p, n);
    }

    /// Takes the innermost frame off, with the locals of its call.
    pub fn pop(&mut self) -> Option<Frame>
        ensures none { IfNone result ((self.old.items ≡ []) × (self.new ≡ self.old)) }
        ensures some { IfSome result (λ frame. self.old.items ≡ frame ∷ self.new.items) }
        ensures calls { IfSome result (λ frame. self.new.calls ≡ below self.old.calls frame.kind) }
        ensures size { self.new.size ≡ self.old.size }
        ensures most { self.new.most ≡ self.old.most }
        ensures room { IfSome result (λ _. length self.new.items < self.new.size) }
    {
        let Some(frame) = self.frames.pop() else {
            return None;
        };
        if let Kind::Call { count, .. } = frame.kind {
            self.locals.close(count);
        }
        Some(frame)
    }

    /// Takes all frames off, with the locals of their calls.
    pub fn clear(&mut self)
        ensures { self.new ≡ record self.old { items = []; calls = [] } }
    {
        self.frames.clear();
        self.locals.clear();
    }

    /// What the innermost catch body of the innermost call has caught, or `cancel_e` where there is none.
    pub fn caught(&self) -> Exc
        ensures { result ≡ caught_among self.now.items }
    {
        let mut i = self.frames.len();
        while i > 0 {
            i -= 1;
            match self.frames[i].kind {
                Kind::Call { .. } => return CANCEL_E,
                Kind::Catch { caught, .. } => return caught,
                _ => {}
            }
        }
        CANCEL_E
    }
}
