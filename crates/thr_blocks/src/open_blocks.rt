//! The blocks that are open above a line.

ghost use Rattle.std.specs.Prelude.{◌≡◌, [], ◌∷◌, OnOk, IfErr};
ghost use Rattle.std.specs.List.{list_any};
ghost use Rattle.thr_text.specs.Blocks.{is_try, is_catch, begun, tail_of, blocks_below};
ghost use Rattle.thr_blocks.specs.Levels.{innermost_of};

use crate::level::Level;
use std::alloc::{AllocFailed, Global};
use std::marker::Model;
use thr_text::block::{Block, Shape};
use thr_text::fault::ParseFault;

/// The open blocks, which contracts see as a list from the innermost outward (docs/script.md, "Blocks"). A call costs
/// the same however many they are, but for the growth of the memory behind them.
#[derive(Drop)]
pub struct OpenBlocks {
    levels: Vec<Level>,
}

impl Model for OpenBlocks {
    ghost use Rattle.std.specs.Prelude.{List, reverse};
    ghost use Rattle.thr_text.specs.declared.block.Block.{Block};
    ghost use Rattle.thr_blocks.specs.Levels.{blocks_in, AreKept};

    ghost Value = { List Block };

    ghost view = { λ o. blocks_in (reverse o.levels.items) };

    ghost invariant = { λ o. AreKept (reverse o.levels.items) };
}

pub fn is_try(block: Block) -> bool
    ensures { result ≡ is_try block }
{
    match block {
        Block::Locals | Block::Statements | Block::Then | Block::Otherwise | Block::Loop => false,
        Block::TryBody | Block::CatchBody | Block::CatchAllBody | Block::FinallyBody => true,
    }
}

fn is_catch(block: Block) -> bool
    ensures { result ≡ is_catch block }
{
    match block {
        Block::CatchBody | Block::CatchAllBody => true,
        Block::Locals
        | Block::Statements
        | Block::Then
        | Block::Otherwise
        | Block::Loop
        | Block::TryBody
        | Block::FinallyBody => false,
    }
}

impl OpenBlocks {
    pub fn new(alloc: Global) -> OpenBlocks
        ensures { result ≡ [] }
    {
        OpenBlocks {
            levels: Vec::new(alloc),
        }
    }

    pub fn innermost(&self) -> Option<Block>
        ensures { result ≡ innermost_of self.now }
    {
        match self.levels.last() {
            None => None,
            Some(level) => Some(level.block),
        }
    }

    /// Whether a try is open.
    pub fn in_try(&self) -> bool
        ensures { result ≡ list_any is_try self.now }
    {
        match self.levels.last() {
            None => false,
            Some(level) => level.in_try,
        }
    }

    /// Whether a body that catches is open.
    pub fn in_catch(&self) -> bool
        ensures { result ≡ list_any is_catch self.now }
    {
        match self.levels.last() {
            None => false,
            Some(level) => level.in_catch,
        }
    }

    fn push(&mut self, block: Block) -> Result<(), AllocFailed<Level>>
        ensures { OnOk result (self.new ≡ block ∷ self.old) }
    {
        let in_try = is_try(block) || self.in_try();
        let in_catch = is_catch(block) || self.in_catch();
        self.levels.push(Level {
            block,
            in_try,
            in_catch,
        })
    }

    fn pop(&mut self)
        ensures { self.new ≡ tail_of self.old }
    {
        self.levels.pop();
    }

    /// A statement stands here, so that no local of its routine follows.
    fn begin(&mut self) -> Result<(), AllocFailed<Level>>
        ensures { OnOk result (self.new ≡ begun self.old) }
    {
        match self.innermost() {
            Some(Block::Locals) => {
                self.pop();
                self.push(Block::Statements)
            }
            _ => Ok(()),
        }
    }

    /// Opens a block in the innermost one.
    fn enter(&mut self, block: Block) -> Result<(), AllocFailed<Level>>
        ensures { OnOk result (self.new ≡ block ∷ begun self.old) }
    {
        self.begin()?;
        self.push(block)
    }

    /// Opens a block in the place of the innermost one.
    fn replace(&mut self, block: Block) -> Result<(), AllocFailed<Level>>
        ensures { OnOk result (self.new ≡ block ∷ tail_of self.old) }
    {
        self.pop();
        self.push(block)
    }

    /// Goes past a line that has its place.
    #[tactic(auto, unfolding(thr_text::specs::Blocks::blocks_below))]
    pub fn pass(&mut self, shape: Shape) -> Result<(), ParseFault>
        ensures ok { OnOk result (self.new ≡ blocks_below self.old shape) }
        ensures fault { IfErr result (λ f. f ≡ ParseFault.NoMemory) }
    {
        match shape {
            Shape::Declares | Shape::DeclaresLocal => {}
            Shape::OpensRoutine => self.push(Block::Locals)?,
            Shape::IsPlain | Shape::Returns | Shape::Reraises => self.begin()?,
            Shape::OpensIf => self.enter(Block::Then)?,
            Shape::OpensWhile => self.enter(Block::Loop)?,
            Shape::OpensTry => self.enter(Block::TryBody)?,
            Shape::BeginsElse => self.replace(Block::Otherwise)?,
            Shape::BeginsCatch => self.replace(Block::CatchBody)?,
            Shape::BeginsCatchAll => self.replace(Block::CatchAllBody)?,
            Shape::BeginsFinally => self.replace(Block::FinallyBody)?,
            Shape::ClosesTry | Shape::Closes => self.pop(),
        }
        Ok(())
    }
}
