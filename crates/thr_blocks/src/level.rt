//! One open block.

use thr_text::block::Block;

/// An open block, and what is open at it or around it, so that these are asked in constant time however deep it lies.
#[derive(Clone, Copy)]
pub struct Level {
    pub block: Block,
    /// The block, or one around it, is part of a try.
    pub in_try: bool,
    /// The block, or one around it, is a body that catches.
    pub in_catch: bool,
}
