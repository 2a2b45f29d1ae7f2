//! The faults of a line at its place.

ghost use Rattle.std.specs.Prelude.{◌≡◌};
ghost use Rattle.thr_text.specs.Faults.{first_of};
ghost use Rattle.thr_text.specs.Blocks.{is_try, has_place, is_inside, is_outside, is_after_catch_all, is_beside_finally, is_without_clause, leaves_a_try, means_caught, is_uncaught, misfits};

use crate::open_blocks::{OpenBlocks, is_try};
use thr_text::block::{Block, Shape};

fn is_inside(blocks: &OpenBlocks, shape: Shape) -> bool
    ensures { result ≡ is_inside blocks.now shape }
{
    match blocks.innermost() {
        None => false,
        Some(_) => matches!(shape, Shape::Declares | Shape::OpensRoutine),
    }
}

/// Whether a line has its place in the innermost block, as far as F9 goes.
fn has_place(block: Block, shape: Shape) -> bool
    ensures { result ≡ has_place block shape }
{
    match shape {
        Shape::DeclaresLocal => matches!(block, Block::Locals),
        Shape::BeginsElse => matches!(block, Block::Then),
        Shape::BeginsCatch | Shape::BeginsCatchAll | Shape::BeginsFinally | Shape::ClosesTry => {
            is_try(block)
        }
        Shape::Closes => !is_try(block),
        _ => true,
    }
}

fn is_outside(blocks: &OpenBlocks, shape: Shape) -> bool
    ensures { result ≡ is_outside blocks.now shape }
{
    match blocks.innermost() {
        None => !matches!(shape, Shape::Declares | Shape::OpensRoutine),
        Some(block) => !has_place(block, shape),
    }
}

fn is_after_catch_all(blocks: &OpenBlocks, shape: Shape) -> bool
    ensures { result ≡ is_after_catch_all blocks.now shape }
{
    match blocks.innermost() {
        Some(Block::CatchAllBody) => matches!(shape, Shape::BeginsCatch | Shape::BeginsCatchAll),
        _ => false,
    }
}

fn is_beside_finally(blocks: &OpenBlocks, shape: Shape) -> bool
    ensures { result ≡ is_beside_finally blocks.now shape }
{
    match blocks.innermost() {
        Some(Block::CatchBody | Block::CatchAllBody) => matches!(shape, Shape::BeginsFinally),
        Some(Block::FinallyBody) => matches!(
            shape,
            Shape::BeginsFinally | Shape::BeginsCatch | Shape::BeginsCatchAll
        ),
        _ => false,
    }
}

fn is_without_clause(blocks: &OpenBlocks, shape: Shape) -> bool
    ensures { result ≡ is_without_clause blocks.now shape }
{
    match blocks.innermost() {
        Some(Block::TryBody) => matches!(shape, Shape::ClosesTry),
        _ => false,
    }
}

fn leaves_a_try(blocks: &OpenBlocks, shape: Shape) -> bool
    ensures { result ≡ leaves_a_try blocks.now shape }
{
    match shape {
        Shape::Returns => blocks.in_try(),
        _ => false,
    }
}

fn means_caught(shape: Shape, this: bool) -> bool
    ensures { result ≡ means_caught shape this }
{
    match shape {
        Shape::Reraises => true,
        _ => this,
    }
}

fn is_uncaught(blocks: &OpenBlocks, shape: Shape, this: bool) -> bool
    ensures { result ≡ is_uncaught blocks.now shape this }
{
    means_caught(shape, this) && !blocks.in_catch()
}

/// The least of the faults F8 to F14 that a line has below these open blocks (docs/script.md, "Faults"); `this` says that
/// the word `this` stands in it.
#[tactic(auto, unfolding(thr_text::specs::Blocks::misfits))]
pub fn misfit(blocks: &OpenBlocks, shape: Shape, this: bool) -> Option<u8>
    ensures { result ≡ first_of (misfits blocks.now shape this) }
{
    if is_inside(blocks, shape) {
        return Some(8);
    }
    if is_outside(blocks, shape) {
        return Some(9);
    }
    if is_after_catch_all(blocks, shape) {
        return Some(10);
    }
    if is_beside_finally(blocks, shape) {
        return Some(11);
    }
    if is_without_clause(blocks, shape) {
        return Some(12);
    }
    if leaves_a_try(blocks, shape) {
        return Some(13);
    }
    if is_uncaught(blocks, shape, this) {
        return Some(14);
    }
    None
}
