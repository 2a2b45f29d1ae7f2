//! What is left of the words of a line when each operator has taken its operands.

use thr_syntax::expr::Expr;
use thr_text::word::Word;

/// A word that no operator has taken, or an expression that an operator has made.
#[derive(Drop)]
pub enum Piece<'a> {
    Raw(&'a Word),
    Made(Expr),
}
