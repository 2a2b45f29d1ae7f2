//! The second pass.

ghost use Rattle.std.specs.Prelude.{◌≡◌, [], IfOk, OnOk, IfErr};
ghost use Rattle.thr_text.specs.Blocks.{misfits, blocks_below, shape_of_line, mentions_this, at_line, block_faults};
ghost use Rattle.thr_text.specs.Refusals.{IsFirst};
ghost use Rattle.thr_blocks.specs.Levels.{line_misfits};

use crate::misfit::misfit;
use crate::open_blocks::OpenBlocks;
use std::alloc::Global;
use thr_lexer::line::Line;
use thr_text::block::Shape;
use thr_text::fault::{ParseFault, Place};
use thr_text::operands::is_word;
use thr_text::word::Word;

fn mentions_this(words: &[Word]) -> bool
    ensures { result ≡ mentions_this words.now }
{
    words.iter().any(|word| is_word(b"this", word))
}

fn shape(line: &Line) -> Shape
    ensures { result ≡ shape_of_line line.now.1 }
{
    line.head().shape()
}

/// Goes past a line of this number, or answers its least fault; `this` says that the word `this` stands in it.
pub(crate) fn pass_shape(
    blocks: &mut OpenBlocks,
    number: u32,
    shape: Shape,
    this: bool,
) -> Result<(), ParseFault>
    ensures good { IfOk result (λ _. misfits blocks.old shape this ≡ []) }
    ensures below { OnOk result (blocks.new ≡ blocks_below blocks.old shape) }
    ensures fault { IfErr result (λ f. IsFirst f (at_line number (misfits blocks.old shape this))) }
{
    match misfit(blocks, shape, this) {
        None => blocks.pass(shape),
        Some(fault) => Err(ParseFault::Refused(Place {
            number: fault,
            line: number,
        })),
    }
}

fn pass_line(blocks: &mut OpenBlocks, line: &Line) -> Result<(), ParseFault>
    ensures good { IfOk result (λ _. line_misfits blocks.old line.now ≡ []) }
    ensures below { OnOk result (blocks.new ≡ blocks_below blocks.old (shape_of_line line.now.1)) }
    ensures fault { IfErr result (λ f. IsFirst f (at_line line.now.0 (line_misfits blocks.old line.now))) }
{
    let this = mentions_this(line.words().as_slice());
    pass_shape(blocks, line.number(), shape(line), this)
}

/// The text ends, at the line after its last.
#[tactic(auto, unfolding(thr_text::specs::Blocks::block_faults))]
pub(crate) fn end_text(blocks: &OpenBlocks, end: u32) -> Result<(), ParseFault>
    ensures good { IfOk result (λ _. block_faults end blocks.now [] ≡ []) }
    ensures fault { IfErr result (λ f. IsFirst f (block_faults end blocks.now [])) }
{
    match blocks.innermost() {
        None => Ok(()),
        Some(_) => Err(ParseFault::Refused(Place {
            number: 8,
            line: end,
        })),
    }
}

/// The second pass over the lines of a text of a script: each stands where it may, and no block is left open at the end
/// of the text, which is the line after the last. Else the first of the faults F8 to F14 (docs/script.md, "Blocks" and
/// "Faults"). Blocks may lie in one another to any depth; each line costs about the same.
pub fn check_blocks(alloc: Global, lines: &[Line], end: u32) -> Result<(), ParseFault>
    ensures ok { IfOk result (λ _. block_faults end [] lines.now ≡ []) }
    ensures fault { IfErr result (λ f. IsFirst f (block_faults end [] lines.now)) }
{
    let mut blocks = OpenBlocks::new(alloc);
    for line in lines {
        pass_line(&mut blocks, line)?;
    }
    end_text(&blocks, end)
}
