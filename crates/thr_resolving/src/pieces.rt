//! The words of a line read from the right: each operator takes the pieces after it.

ghost use Rattle.std.specs.Prelude.{◌≡◌, pos, [], ◌∷◌, OnOk, IfErr};
ghost use Rattle.thr_text.specs.declared.fault.ParseFault.TheVariants as ParseFault;
ghost use Rattle.thr_text.specs.declared.word.Word.TheVariants.{Num};
ghost use Rattle.thr_text.specs.Faults.{first_of};
ghost use Rattle.thr_resolving.specs.Resolving as Resolving;
ghost use Rattle.thr_resolving.specs.Resolving.{after_first, atom_in, named_atom, expression_in, word_in, exception_in, operation, negation, status_asked, match_asked, with_word};
ghost use Rattle.thr_resolving.specs.Seen.{scope_seen, piece_seen, maybe_piece};

use crate::operator::operator;
use crate::piece::Piece;
use crate::scope::Names;
use sqlite_items::Boxed;
use std::alloc::Global;
use std::marker::Model;
use thr_syntax::expr::{ExcRef, Expr};
use thr_text::fault::ParseFault;
use thr_text::operands::{is_binary, is_word, may_operate};
use thr_text::word::Word;

/// The pieces of a line that no operator has taken yet, the leftmost first.
#[derive(Drop)]
pub struct Pieces<'a> {
    stack: Vec<Piece<'a>>,
}

impl<'a> Model for Pieces<'a> {
    ghost use Rattle.std.specs.Prelude.{List, map, reverse};
    ghost use Rattle.std.specs.Coded.{codes};
    ghost use Rattle.thr_syntax.specs.contracts.expr.Expr as expr;
    ghost use Rattle.thr_resolving.specs.Resolving.{Piece};
    ghost use Rattle.thr_resolving.specs.Seen.{piece_seen};

    ghost Value = { List Piece };

    ghost coded = { Prim.hlevel (codes, expr.the_row.coded) };

    ghost view = { λ p. map piece_seen (reverse p.stack.items) };
}

impl<'a> Pieces<'a> {
    /// No pieces.
    pub fn new(alloc: Global) -> Pieces<'a>
        ensures { result ≡ [] }
    {
        Pieces {
            stack: Vec::new(alloc),
        }
    }

    /// Takes all pieces out.
    fn clear(&mut self)
        ensures { self.new ≡ [] }
    {
        self.stack.clear();
    }

    /// Takes the leftmost piece, if there is one.
    pub fn pop(&mut self) -> Option<Piece<'a>>
        ensures first { maybe_piece result ≡ first_of self.old }
        ensures rest { self.new ≡ after_first self.old }
    {
        self.stack.pop()
    }

    /// Puts a piece before the others.
    fn push(&mut self, piece: Piece<'a>) -> Result<(), ParseFault>
        ensures ok { OnOk result (self.new ≡ piece_seen piece.entry ∷ self.old) }
        ensures fault { IfErr result (λ f. f ≡ ParseFault.NoMemory) }
    {
        self.stack.push(piece)?;
        Ok(())
    }
}

/// The word that a piece is, or else this one, which stands for what is no word.
pub fn word_or<'b>(piece: &'b Option<Piece<'b>>, zero: &'b Word) -> &'b Word
    requires { zero.now ≡ Num (pos 0) }
    ensures { result.now ≡ word_in (maybe_piece piece.now) }
{
    match piece {
        Some(Piece::Raw(word)) => word,
        _ => zero,
    }
}

/// The exception that a piece names.
fn exception(names: &Names, piece: Option<Piece>) -> ExcRef
    ensures { result ≡ exception_in (scope_seen names.now) (word_in (maybe_piece piece.entry)) }
{
    let zero = Word::Num(0);
    names.exception(word_or(&piece, &zero))
}

/// `self`, `err`, or a variable.
fn named_atom(names: &Names, word: &Word) -> Expr
    ensures { result ≡ named_atom (scope_seen names.now) word.now }
{
    if is_word(b"self", word) {
        Expr::Me
    } else if is_word(b"err", word) {
        Expr::Err
    } else {
        Expr::Var(names.variable(word))
    }
}

/// The expression of one word that is no operator.
fn atom(names: &Names, word: &Word) -> Expr
    ensures { result ≡ atom_in (scope_seen names.now) word.now }
{
    match word {
        Word::Num(number) => Expr::Num(*number),
        _ => named_atom(names, word),
    }
}

/// The expression that a piece is, or 0 where there is none.
pub fn expression(names: &Names, piece: Option<Piece>) -> Expr
    ensures { result ≡ expression_in (scope_seen names.now) (maybe_piece piece.entry) }
{
    match piece {
        Some(Piece::Raw(word)) => atom(names, word),
        Some(Piece::Made(expression)) => expression,
        None => Expr::Num(0),
    }
}

/// An operator takes its two operands.
fn operate(alloc: Global, names: &Names, word: &Word, pieces: &mut Pieces) -> Result<(), ParseFault>
    ensures ok { OnOk result (pieces.new ≡ operation (scope_seen names.now) word.now pieces.old) }
    ensures fault { IfErr result (λ f. f ≡ ParseFault.NoMemory) }
{
    let first = expression(names, pieces.pop());
    let second = expression(names, pieces.pop());
    let first = Boxed::new(alloc, first)?;
    let second = Boxed::new(alloc, second)?;
    pieces.push(Piece::Made(Expr::Two(operator(word), first, second)))
}

/// `not` takes its operand.
fn negate(alloc: Global, names: &Names, pieces: &mut Pieces) -> Result<(), ParseFault>
    ensures ok { OnOk result (pieces.new ≡ negation (scope_seen names.now) pieces.old) }
    ensures fault { IfErr result (λ f. f ≡ ParseFault.NoMemory) }
{
    let operand = expression(names, pieces.pop());
    let operand = Boxed::new(alloc, operand)?;
    pieces.push(Piece::Made(Expr::Not(operand)))
}

/// `exc_get_status` takes its operand.
fn ask_status(names: &Names, pieces: &mut Pieces) -> Result<(), ParseFault>
    ensures ok { OnOk result (pieces.new ≡ status_asked (scope_seen names.now) pieces.old) }
    ensures fault { IfErr result (λ f. f ≡ ParseFault.NoMemory) }
{
    let asked = exception(names, pieces.pop());
    pieces.push(Piece::Made(Expr::GetStatus(asked)))
}

/// `exc_matches` takes its operands.
fn ask_match(names: &Names, pieces: &mut Pieces) -> Result<(), ParseFault>
    ensures ok { OnOk result (pieces.new ≡ match_asked (scope_seen names.now) pieces.old) }
    ensures fault { IfErr result (λ f. f ≡ ParseFault.NoMemory) }
{
    let first = exception(names, pieces.pop());
    let second = exception(names, pieces.pop());
    pieces.push(Piece::Made(Expr::Matches(first, second)))
}

/// Puts a word before the pieces, which takes its operands where it is an operator.
#[tactic(auto, unfolding(crate::specs::Resolving::with_word))]
fn put_word<'a>(
    alloc: Global,
    names: &Names,
    word: &'a Word,
    pieces: &mut Pieces<'a>,
) -> Result<(), ParseFault>
    ensures ok { OnOk result (pieces.new ≡ with_word (scope_seen names.now) word.now pieces.old) }
    ensures fault { IfErr result (λ f. f ≡ ParseFault.NoMemory) }
{
    if !may_operate(word) {
        return pieces.push(Piece::Raw(word));
    }
    if is_binary(word) {
        return operate(alloc, names, word, pieces);
    }
    if is_word(b"not", word) {
        return negate(alloc, names, pieces);
    }
    if is_word(b"exc_get_status", word) {
        return ask_status(names, pieces);
    }
    if is_word(b"exc_matches", word) {
        return ask_match(names, pieces);
    }
    pieces.push(Piece::Raw(word))
}

/// Puts the pieces that are left of these words in the place of those that are there.
pub fn read_pieces<'a>(
    alloc: Global,
    names: &Names,
    words: &'a [Word],
    pieces: &mut Pieces<'a>,
) -> Result<(), ParseFault>
    ensures ok { OnOk result (pieces.new ≡ Resolving.pieces_of (scope_seen names.now) words.now) }
    ensures fault { IfErr result (λ f. f ≡ ParseFault.NoMemory) }
{
    pieces.clear();
    let mut left = words.len();
    while left > 0 {
        left -= 1;
        put_word(alloc, names, &words[left], pieces)?;
    }
    Ok(())
}
