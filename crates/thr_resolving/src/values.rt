//! The values in the slots of a line, which its form takes one by one.

ghost use Rattle.std.specs.Prelude.{◌≡◌, [], reverse, OnOk, IfErr};
ghost use Rattle.thr_text.specs.declared.fault.ParseFault.TheVariants as ParseFault;
ghost use Rattle.thr_text.specs.Faults.{first_of};
ghost use Rattle.thr_resolving.specs.Resolving as Resolving;
ghost use Rattle.thr_resolving.specs.Resolving.{after_first, size_of, as_number, as_size, as_interface, as_policy, as_inherit, as_cancel, as_kind, as_id, as_maybe, as_own, as_variable, as_receiver, as_expression};
ghost use Rattle.thr_resolving.specs.Seen.{scope_seen};

use crate::pieces::Pieces;
use crate::scope::Names;
use crate::value::{Value, value_in};
use std::alloc::Global;
use std::marker::Model;
use thr_syntax::expr::{Expr, Var};
use thr_syntax::tree::Interface;
use thr_text::fault::ParseFault;
use thr_text::head::Slot;
use thr_values::name::Name;
use thr_values::number::NameId;
use thr_values::reply::Kind;
use thr_values::scheduling::Policy;

/// Values in the order of their slots.
#[derive(Drop)]
pub struct Values {
    reversed: Vec<Value>,
}

impl Model for Values {
    ghost use Rattle.std.specs.Prelude.{List, reverse};
    ghost use Rattle.std.specs.Coded.{codes};
    ghost use Rattle.thr_syntax.specs.contracts.expr.Expr as expr;
    ghost use Rattle.thr_resolving.specs.declared.value.Value.{Value as SlotValue};

    ghost Value = { List SlotValue };

    ghost coded = { Prim.hlevel (codes, expr.the_row.coded) };

    ghost view = { λ v. reverse v.reversed.items };
}

fn as_number(value: Option<Value>) -> i64
    ensures { result ≡ as_number value }
{
    match value {
        Some(Value::Number(value)) => value,
        _ => 0,
    }
}

fn as_interface(value: Option<Value>) -> Interface
    ensures { result ≡ as_interface value }
{
    match value {
        Some(Value::Interface(value)) => value,
        _ => Interface::Status,
    }
}

fn as_policy(value: Option<Value>) -> Policy
    ensures { result ≡ as_policy value }
{
    match value {
        Some(Value::Policy(value)) => value,
        _ => Policy::Bg,
    }
}

fn as_inherit(value: Option<Value>) -> bool
    ensures { result ≡ as_inherit value }
{
    match value {
        Some(Value::Inherit(value)) => value,
        _ => false,
    }
}

fn as_cancel(value: Option<Value>) -> bool
    ensures { result ≡ as_cancel value }
{
    match value {
        Some(Value::Cancel(value)) => value,
        _ => false,
    }
}

fn as_kind(value: Option<Value>) -> Kind
    ensures { result ≡ as_kind value }
{
    match value {
        Some(Value::Kind(value)) => value,
        _ => Kind::Nonrecursive,
    }
}

fn as_id(value: Option<Value>) -> NameId
    ensures { result ≡ as_id value }
{
    match value {
        Some(Value::Id(value)) => value,
        _ => NameId(0),
    }
}

fn as_maybe(value: Option<Value>) -> Option<NameId>
    ensures { result ≡ as_maybe value }
{
    match value {
        Some(Value::Maybe(value)) => value,
        _ => None,
    }
}

fn as_own(value: Option<Value>) -> Option<Name>
    ensures { result ≡ as_own value }
{
    match value {
        None => None,
        Some(value) => match value {
            Value::Own(value) => value,
            _other => None,
        },
    }
}

fn as_variable(value: Option<Value>) -> Var
    ensures { result ≡ as_variable value }
{
    match value {
        Some(Value::Variable(value)) => value,
        _ => Var::Local(0),
    }
}

fn as_receiver(value: Option<Value>) -> Option<u8>
    ensures { result ≡ as_receiver value }
{
    match value {
        Some(Value::Receiver(value)) => value,
        _ => None,
    }
}

fn as_expression(value: Option<Value>) -> Expr
    ensures { result ≡ as_expression value }
{
    match value {
        Some(Value::Expression(value)) => value,
        _ => Expr::Num(0),
    }
}

fn size_of(number: i64) -> u32
    ensures { result ≡ size_of number }
{
    if (0..1 << 32).contains(&number) {
        number as u32
    } else {
        0
    }
}

impl Values {
    /// No values.
    pub fn new(alloc: Global) -> Values
        ensures { result ≡ [] }
    {
        Values {
            reversed: Vec::new(alloc),
        }
    }

    /// Takes the first value, if there is one.
    fn pop(&mut self) -> Option<Value>
        ensures first { result ≡ first_of self.old }
        ensures rest { self.new ≡ after_first self.old }
    {
        self.reversed.pop()
    }

    /// Takes a number of 32 bits without a sign, or else 0.
    pub fn size(&mut self) -> u32
        ensures value { result ≡ as_size (first_of self.old) }
        ensures rest { self.new ≡ after_first self.old }
    {
        size_of(self.number())
    }

    /// Takes a number, or else 0.
    pub fn number(&mut self) -> i64
        ensures value { result ≡ as_number (first_of self.old) }
        ensures rest { self.new ≡ after_first self.old }
    {
        as_number(self.pop())
    }

    /// Takes a word of an `interface` line, or else `status`.
    pub fn interface(&mut self) -> Interface
        ensures value { result ≡ as_interface (first_of self.old) }
        ensures rest { self.new ≡ after_first self.old }
    {
        as_interface(self.pop())
    }

    /// Takes a policy, or else the last.
    pub fn policy(&mut self) -> Policy
        ensures value { result ≡ as_policy (first_of self.old) }
        ensures rest { self.new ≡ after_first self.old }
    {
        as_policy(self.pop())
    }

    /// Takes whether a created thread inherits, or else that it does not.
    pub fn inherit(&mut self) -> bool
        ensures value { result ≡ as_inherit (first_of self.old) }
        ensures rest { self.new ≡ after_first self.old }
    {
        as_inherit(self.pop())
    }

    /// Takes whether a cancelability is on, or else that it is not.
    pub fn cancel(&mut self) -> bool
        ensures value { result ≡ as_cancel (first_of self.old) }
        ensures rest { self.new ≡ after_first self.old }
    {
        as_cancel(self.pop())
    }

    /// Takes a kind of mutexes, or else the last.
    pub fn kind(&mut self) -> Kind
        ensures value { result ≡ as_kind (first_of self.old) }
        ensures rest { self.new ≡ after_first self.old }
    {
        as_kind(self.pop())
    }

    /// Takes a declared name, or else the first.
    pub fn id(&mut self) -> NameId
        ensures value { result ≡ as_id (first_of self.old) }
        ensures rest { self.new ≡ after_first self.old }
    {
        as_id(self.pop())
    }

    /// Takes a declared name, or the word for none.
    pub fn maybe(&mut self) -> Option<NameId>
        ensures value { result ≡ as_maybe (first_of self.old) }
        ensures rest { self.new ≡ after_first self.old }
    {
        as_maybe(self.pop())
    }

    /// Takes the name of a parameter or local where it is declared.
    pub fn own(&mut self) -> Option<Name>
        ensures value { result ≡ as_own (first_of self.old) }
        ensures rest { self.new ≡ after_first self.old }
    {
        as_own(self.pop())
    }

    /// Takes a variable, or else the parameter.
    pub fn variable(&mut self) -> Var
        ensures value { result ≡ as_variable (first_of self.old) }
        ensures rest { self.new ≡ after_first self.old }
    {
        as_variable(self.pop())
    }

    /// Takes the parameter or local that takes what a routine returns, or nothing.
    pub fn receiver(&mut self) -> Option<u8>
        ensures value { result ≡ as_receiver (first_of self.old) }
        ensures rest { self.new ≡ after_first self.old }
    {
        as_receiver(self.pop())
    }

    /// Takes an expression, or else 0.
    pub fn expression(&mut self) -> Expr
        ensures value { result ≡ as_expression (first_of self.old) }
        ensures rest { self.new ≡ after_first self.old }
    {
        as_expression(self.pop())
    }
}

/// The values in these slots, each made of the next piece, from the last on.
fn fill(
    names: &Names,
    slots: &[Slot],
    pieces: &mut Pieces,
    values: &mut Vec<Value>,
) -> Result<(), ParseFault>
    ensures ok { OnOk result (reverse values.new.items ≡ Resolving.values_in (scope_seen names.now) slots.now pieces.old) }
    ensures fault { IfErr result (λ f. f ≡ ParseFault.NoMemory) }
{
    values.clear();
    for slot in slots {
        values.push(value_in(names, *slot, pieces.pop())?)?;
    }
    values.reverse();
    Ok(())
}

/// Puts the values in these slots in the place of those that are there, each made of the next piece. The pieces are taken.
pub fn read_values(
    names: &Names,
    slots: &[Slot],
    pieces: &mut Pieces,
    values: &mut Values,
) -> Result<(), ParseFault>
    ensures ok { OnOk result (values.new ≡ Resolving.values_in (scope_seen names.now) slots.now pieces.old) }
    ensures fault { IfErr result (λ f. f ≡ ParseFault.NoMemory) }
{
    fill(names, slots, pieces, &mut values.reversed)
}
