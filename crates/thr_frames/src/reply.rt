//! What a thread does with the reply of a call.

ghost use Rattle.std.specs.Prelude.{◌≡◌, ◌<◌, length, [], ◌∷◌, true};
ghost use Rattle.thr_lines.specs.AtLines.{StatementAt};
ghost use Rattle.thr_lines.specs.Layout.{line_at, last_line};
ghost use Rattle.thr_remainder.specs.Acts.{Asks};
ghost use Rattle.thr_remainder.specs.Calls.{stores, taken, taken_by_read};
ghost use Rattle.thr_remainder.specs.Declarations.{interface_of};
ghost use Rattle.thr_remainder.specs.Remainders.{place_in};
ghost use Rattle.thr_remainder.specs.Replies.{is_eagain, is_timed_wait, raised_by, replied, shared_in, writes};
ghost use Rattle.thr_stack.specs.Standing.{IsGood, Stands, Makes, remainder_of, setting_of};
ghost use Rattle.thr_frames.specs.Replies.{stores_at, shared_store, first_store, second_store, listed_stores, listed_writes, calls_with, IsBehind};
ghost use Rattle.thr_frames.specs.Stacks.{CanNumber};

use crate::stores::Stores;
use thr_lines::lines::Lines;
use thr_stack::context::Context;
use thr_stack::frames::Frames;
use thr_stack::notes::Notes;
use thr_stack::place::go_to_step;
use thr_stack::raise::raise;
use thr_syntax::dce::DceCall;
use thr_syntax::expr::Var;
use thr_syntax::form::Form;
use thr_syntax::tree::Interface;
use thr_values::exception::Exc;
use thr_values::number::{Line, NameId};
use thr_values::reply::{Reply, errno, error_exc};

/// What a call writes to shared variables: the value for its first variable and for the second of `read`. Each is None where
/// there is no such variable, where it is a local one, and where it gets no value (docs/machine.md, "Replies").
#[derive(Clone, Copy)]
pub struct Writes {
    pub first: Option<(NameId, i64)>,
    pub second: Option<(NameId, i64)>,
}

/// What a call with one variable stores: the value of a number reply.
fn taken(v: Var, reply: &Reply) -> Stores
    ensures { listed_stores result ≡ taken v reply.now }
{
    match reply {
        Reply::Value(n) => {
            let n = *n;
            Stores::One(v, n)
        }
        _ => Stores::Nothing,
    }
}

/// What `read` stores: the item and 1, or 0 in both variables at the end of a pipe.
fn taken_by_read(v: Var, w: Var, reply: &Reply) -> Stores
    ensures { listed_stores result ≡ taken_by_read v w reply.now }
{
    match reply {
        Reply::Value(n) => {
            let n = *n;
            Stores::Two(v, n, w, 1)
        }
        Reply::Eof => Stores::Two(v, 0, w, 0),
        _ => Stores::Nothing,
    }
}

/// What a call stores of its reply.
#[tactic(auto, unfolding(thr_remainder::specs::Calls::stores))]
fn stores(call: &DceCall, reply: &Reply) -> Stores
    ensures { listed_stores result ≡ stores call.now reply.now }
{
    match call {
        DceCall::Create(v, _, _, _)
        | DceCall::Join(_, v)
        | DceCall::Setcancel(_, v)
        | DceCall::Setasynccancel(_, v)
        | DceCall::Setprio(_, _, v)
        | DceCall::Getprio(_, v)
        | DceCall::Setscheduler(_, _, _, v)
        | DceCall::Getscheduler(_, v)
        | DceCall::GetExpirationNp(_, v)
        | DceCall::MutexTrylock(_, v)
        | DceCall::Getspecific(_, v) => taken(*v, reply),
        DceCall::Read(_, v, w) => taken_by_read(*v, *w, reply),
        _ => Stores::Nothing,
    }
}

/// A local variable takes this value; a shared one is not among them.
fn keep(frames: &mut Frames, v: Var, n: i64)
    ensures { frames.new ≡ record frames.old { calls = calls_with ((v, n) ∷ []) frames.old.calls } }
{
    match v {
        Var::Local(p) => frames.set_local(p, n),
        Var::Shared(_) => {}
    }
}

/// The local variables take their values, in their order.
fn keep_all(frames: &mut Frames, stores: Stores)
    ensures { frames.new ≡ record frames.old { calls = calls_with (listed_stores stores) frames.old.calls } }
{
    match stores {
        Stores::Nothing => {}
        Stores::One(v, n) => keep(frames, v, n),
        Stores::Two(v, n, w, m) => {
            keep(frames, v, n);
            keep(frames, w, m);
        }
    }
}

/// The shared variable that takes this value, if the variable is shared.
fn written(v: Var, n: i64) -> Option<(NameId, i64)>
    ensures { result ≡ shared_store (v, n) }
{
    match v {
        Var::Local(_) => None,
        Var::Shared(name) => Some((name, n)),
    }
}

/// What a call that stores this writes to shared variables.
fn shared_writes(stores: Stores) -> Writes
    ensures first { result.first ≡ first_store (listed_stores stores) }
    ensures second { result.second ≡ second_store (listed_stores stores) }
    ensures writes { listed_writes result ≡ shared_in (listed_stores stores) }
{
    match stores {
        Stores::Nothing => Writes {
            first: None,
            second: None,
        },
        Stores::One(v, n) => Writes {
            first: written(v, n),
            second: None,
        },
        Stores::Two(v, n, w, m) => Writes {
            first: written(v, n),
            second: written(w, m),
        },
    }
}

/// Whether a call is a timed wait.
fn is_timed_wait(call: &DceCall) -> bool
    ensures { result ≡ is_timed_wait call.now }
{
    matches!(call, DceCall::CondTimedwait(_, _, _))
}

/// Whether a reply is EAGAIN.
fn is_eagain(reply: &Reply) -> bool
    ensures { result ≡ is_eagain reply.now }
{
    matches!(reply, Reply::Eagain)
}

/// The exception that the reply of a call raises, if it raises one.
fn raised(interface: Interface, call: &DceCall, reply: &Reply) -> Option<Exc>
    ensures { result ≡ raised_by interface call.now reply.now }
{
    if is_timed_wait(call) && is_eagain(reply) {
        return None;
    }
    match interface {
        Interface::Exc => error_exc(reply),
        Interface::Status => None,
    }
}

/// Goes past the call at the line of the context, with what it stores of its reply.
fn go_past(lines: &Lines, context: &mut Context, call: &DceCall, reply: &Reply, values: Stores)
    requires stands { Stands lines.now context.old }
    requires at { StatementAt (line_at lines.now) (last_line lines.now) context.old.line (Asks call.now) true }
    requires values { listed_stores values ≡ stores call.now reply.now }
    ensures { IsBehind lines.now call.now reply.now context.old context.new }
{
    let _count = lines.len();
    context.line += 1;
    keep_all(&mut context.frames, values);
    context.err = errno(reply);
}

/// Gives the call at the line of the context its reply.
fn give_here(
    lines: &Lines,
    context: &mut Context,
    call: &DceCall,
    reply: &Reply,
    interface: Interface,
    notes: &mut Notes,
) -> Writes
    requires stands { Stands lines.now context.old }
    requires at { StatementAt (line_at lines.now) (last_line lines.now) context.old.line (Asks call.now) true }
    requires interface { interface ≡ interface_of lines.now }
    requires numbers { CanNumber (remainder_of lines.now context.old) 1 }
    requires room { length notes.old < 136 }
    ensures replied { Makes lines.now (replied (setting_of lines.now context.old) reply.now (remainder_of lines.now context.old)) context.old context.new notes.old notes.new }
    ensures first { result.first ≡ first_store (stores_at (place_in (remainder_of lines.now context.old).items) reply.now) }
    ensures second { result.second ≡ second_store (stores_at (place_in (remainder_of lines.now context.old).items) reply.now) }
    ensures writes { listed_writes result ≡ writes (remainder_of lines.now context.old) reply.now }
{
    let stores = stores(call, reply);
    go_past(lines, context, call, reply, stores);
    if let Some(x) = raised(interface, call, reply) {
        raise(context, notes, x);
    }
    shared_writes(stores)
}

/// Gives the call that is next its reply, and answers what the call writes to shared variables. Where no call is next, nothing
/// changes.
pub fn give(
    lines: &Lines,
    context: &mut Context,
    reply: &Reply,
    interface: Interface,
    notes: &mut Notes,
) -> Writes
    requires good { IsGood lines.now context.old }
    requires interface { interface ≡ interface_of lines.now }
    requires numbers { CanNumber (remainder_of lines.now context.old) 1 }
    requires room { length notes.old < 136 }
    ensures replied { Makes lines.now (replied (setting_of lines.now context.old) reply.now (remainder_of lines.now context.old)) context.old context.new notes.old notes.new }
    ensures first { result.first ≡ first_store (stores_at (place_in (remainder_of lines.now context.old).items) reply.now) }
    ensures second { result.second ≡ second_store (stores_at (place_in (remainder_of lines.now context.old).items) reply.now) }
    ensures writes { listed_writes result ≡ writes (remainder_of lines.now context.old) reply.now }
{
    if context.frames.is_empty() {
        return shared_writes(Stores::Nothing);
    }
    go_to_step(lines, context);
    match &lines.row(Line(context.line)).form {
        Form::Dce(call) => give_here(lines, context, call, reply, interface, notes),
        _ => shared_writes(Stores::Nothing),
    }
}
