//! Scripts and their canonical texts.

use crate::parsing::parse;
use crate::printing::print;
use sqlite_items::{Boxed, Items};
use std::alloc::Global;
use std::test::Fail;
use thr_syntax::dce::DceCall;
use thr_syntax::expr::{ExcRef, Expr, Op, Var};
use thr_syntax::tree::{Clause, Interface, Item, Routine, Script, Stmt};
use thr_text::fault::ParseFault;
use thr_values::name::Name;
use thr_values::number::NameId;
use thr_values::reply::Kind;
use thr_values::scheduling::Policy;

const TEXT: &[u8] = b"\
dcethr 1
interface status
limit 500
shared n -9223372036854775808
exception e
status s 7
mutex m
mutexattr b
cond c
attr a
key k
once o
pipe p 4096
routine main x
local v
local w
set v + 1 * n -3
set n self
say err
if == v n
say not n
else
say exc_matches cancel_e e
end
if v
end
while < v 10
pthread_yield
end
try
raise s
catch e
say exc_get_status this
reraise
catch_all
endtry
try
call f 1 w
call f 2
finally
pthread_testcancel
endtry
pthread_create v default f self
pthread_create v a f 0
pthread_join v w
pthread_setcancel CANCEL_OFF v
pthread_attr_setsched a SCHED_RR
pthread_attr_setinheritsched a PTHREAD_INHERIT_SCHED
pthread_setprio v 10 w
pthread_setscheduler v SCHED_FG_NP 31 w
pthread_mutexattr_setkind_np b MUTEX_RECURSIVE_NP
pthread_mutex_init m default
pthread_cond_timedwait c m 100
pthread_keycreate k none
read p v w
write p v
close p
return 0
end
routine f y
pthread_exit y
end
";

const CANCEL_E: NameId = NameId(0);

const N: NameId = NameId(1);

const E: NameId = NameId(2);

const S: NameId = NameId(3);

const M: NameId = NameId(4);

const B: NameId = NameId(5);

const C: NameId = NameId(6);

const A: NameId = NameId(7);

const K: NameId = NameId(8);

const O: NameId = NameId(9);

const P: NameId = NameId(10);

const MAIN: NameId = NameId(11);

const F: NameId = NameId(12);

const X: Var = Var::Local(0);

const V: Var = Var::Local(1);

const W: Var = Var::Local(2);

fn names(alloc: Global) -> Result<Items<Name>, Fail> {
    let mut names = Items::new(alloc);
    names.push(Name::from_slice(alloc, b"cancel_e")?)?;
    names.push(Name::from_slice(alloc, b"n")?)?;
    names.push(Name::from_slice(alloc, b"e")?)?;
    names.push(Name::from_slice(alloc, b"s")?)?;
    names.push(Name::from_slice(alloc, b"m")?)?;
    names.push(Name::from_slice(alloc, b"b")?)?;
    names.push(Name::from_slice(alloc, b"c")?)?;
    names.push(Name::from_slice(alloc, b"a")?)?;
    names.push(Name::from_slice(alloc, b"k")?)?;
    names.push(Name::from_slice(alloc, b"o")?)?;
    names.push(Name::from_slice(alloc, b"p")?)?;
    names.push(Name::from_slice(alloc, b"main")?)?;
    names.push(Name::from_slice(alloc, b"f")?)?;
    Ok(names)
}

fn two(alloc: Global, op: Op, a: Expr, b: Expr) -> Result<Expr, Fail> {
    Ok(Expr::Two(op, Boxed::new(alloc, a)?, Boxed::new(alloc, b)?))
}

fn body(alloc: Global, stmt: Stmt) -> Result<Items<Stmt>, Fail> {
    let mut all = Items::new(alloc);
    all.push(stmt)?;
    Ok(all)
}

/// `set v + 1 * n -3` and the statements to the first `while`.
fn add_branches(alloc: Global, all: &mut Items<Stmt>) -> Result<(), Fail> {
    let product = two(alloc, Op::Mul, Expr::Var(Var::Shared(N)), Expr::Num(-3))?;
    all.push(Stmt::Set(V, two(alloc, Op::Add, Expr::Num(1), product)?))?;
    all.push(Stmt::Set(Var::Shared(N), Expr::Me))?;
    all.push(Stmt::Say(Expr::Err))?;
    let test = two(alloc, Op::Equal, Expr::Var(V), Expr::Var(Var::Shared(N)))?;
    let negation = Expr::Not(Boxed::new(alloc, Expr::Var(Var::Shared(N)))?);
    let matches = Expr::Matches(ExcRef::Named(CANCEL_E), ExcRef::Named(E));
    let first = body(alloc, Stmt::Say(negation))?;
    let other = body(alloc, Stmt::Say(matches))?;
    all.push(Stmt::If(test, first, Some(other)))?;
    all.push(Stmt::If(Expr::Var(V), Items::new(alloc), None))?;
    let test = two(alloc, Op::Less, Expr::Var(V), Expr::Num(10))?;
    all.push(Stmt::While(test, body(alloc, Stmt::Dce(DceCall::Yield))?))?;
    Ok(())
}

/// The two tries.
fn add_tries(alloc: Global, all: &mut Items<Stmt>) -> Result<(), Fail> {
    let mut caught = body(alloc, Stmt::Say(Expr::GetStatus(ExcRef::This)))?;
    caught.push(Stmt::Reraise)?;
    let mut clauses = Items::new(alloc);
    clauses.push(Clause {
        names: Some(E),
        body: caught,
    })?;
    clauses.push(Clause {
        names: None,
        body: Items::new(alloc),
    })?;
    all.push(Stmt::TryCatch(body(alloc, Stmt::Raise(S))?, clauses))?;
    let mut calls = body(alloc, Stmt::Call(F, Expr::Num(1), Some(2)))?;
    calls.push(Stmt::Call(F, Expr::Num(2), None))?;
    let last = body(alloc, Stmt::Dce(DceCall::Testcancel))?;
    all.push(Stmt::TryFinally(calls, last))?;
    Ok(())
}

fn add_calls(all: &mut Items<Stmt>) -> Result<(), Fail> {
    let v = Expr::Var(V);
    all.push(Stmt::Dce(DceCall::Create(V, None, F, Expr::Me)))?;
    all.push(Stmt::Dce(DceCall::Create(V, Some(A), F, Expr::Num(0))))?;
    all.push(Stmt::Dce(DceCall::Join(v, W)))?;
    all.push(Stmt::Dce(DceCall::Setcancel(false, V)))?;
    all.push(Stmt::Dce(DceCall::AttrSetsched(A, Policy::Rr)))?;
    all.push(Stmt::Dce(DceCall::AttrSetinheritsched(A, true)))?;
    let prio = DceCall::Setprio(Expr::Var(V), Expr::Num(10), W);
    all.push(Stmt::Dce(prio))?;
    let scheduler = DceCall::Setscheduler(Expr::Var(V), Policy::Fg, Expr::Num(31), W);
    all.push(Stmt::Dce(scheduler))?;
    let kind = DceCall::MutexattrSetkindNp(B, Kind::Recursive);
    all.push(Stmt::Dce(kind))?;
    all.push(Stmt::Dce(DceCall::MutexInit(M, None)))?;
    all.push(Stmt::Dce(DceCall::CondTimedwait(C, M, Expr::Num(100))))?;
    all.push(Stmt::Dce(DceCall::Keycreate(K, None)))?;
    all.push(Stmt::Dce(DceCall::Read(P, V, W)))?;
    all.push(Stmt::Dce(DceCall::Write(P, Expr::Var(V))))?;
    all.push(Stmt::Dce(DceCall::Close(P)))?;
    all.push(Stmt::Return(Expr::Num(0)))?;
    Ok(())
}

fn main_routine(alloc: Global) -> Result<Routine, Fail> {
    let mut locals = Items::new(alloc);
    locals.push(Name::from_slice(alloc, b"x")?)?;
    locals.push(Name::from_slice(alloc, b"v")?)?;
    locals.push(Name::from_slice(alloc, b"w")?)?;
    let mut all = Items::new(alloc);
    add_branches(alloc, &mut all)?;
    add_tries(alloc, &mut all)?;
    add_calls(&mut all)?;
    Ok(Routine {
        name: MAIN,
        locals,
        body: all,
    })
}

fn exits(alloc: Global) -> Result<Routine, Fail> {
    let mut locals = Items::new(alloc);
    locals.push(Name::from_slice(alloc, b"y")?)?;
    Ok(Routine {
        name: F,
        locals,
        body: body(alloc, Stmt::Exit(Expr::Var(X)))?,
    })
}

/// The script whose text is `TEXT`.
fn script(alloc: Global) -> Result<Script, Fail> {
    let mut items = Items::new(alloc);
    items.push(Item::Interface(Interface::Status))?;
    items.push(Item::Limit(500))?;
    items.push(Item::Shared(N, i64::MIN))?;
    items.push(Item::Exception(E))?;
    items.push(Item::Status(S, 7))?;
    items.push(Item::Mutex(M))?;
    items.push(Item::MutexAttr(B))?;
    items.push(Item::Cond(C))?;
    items.push(Item::Attr(A))?;
    items.push(Item::Key(K))?;
    items.push(Item::Once(O))?;
    items.push(Item::Pipe(P, 4096))?;
    items.push(Item::Routine(main_routine(alloc)?))?;
    items.push(Item::Routine(exits(alloc)?))?;
    Ok(Script {
        names: names(alloc)?,
        items,
    })
}

/// A routine without a parameter, in which a name and a local stand that aren't there.
fn stray(alloc: Global) -> Result<Script, Fail> {
    let mut all = body(alloc, Stmt::Raise(NameId(65535)))?;
    all.push(Stmt::Say(Expr::Var(Var::Local(255))))?;
    let mut items = Items::new(alloc);
    items.push(Item::Routine(Routine {
        name: MAIN,
        locals: Items::new(alloc),
        body: all,
    }))?;
    Ok(Script {
        names: names(alloc)?,
        items,
    })
}

#[test]
fn scripts_have_their_texts(rt: HostRuntime) -> Result<(), Fail> {
    let alloc = rt.alloc();
    let text = print(alloc, &script(alloc)?)?;
    assert!(rt; text.as_slice() == TEXT);
    let text = print(alloc, &stray(alloc)?)?;
    assert!(rt; text.as_slice() == b"dcethr 1\nraise \nsay \nend\n".as_slice());
    let empty = Script {
        names: Items::new(alloc),
        items: Items::new(alloc),
    };
    let text = print(alloc, &empty)?;
    assert!(rt; text.as_slice() == b"dcethr 1\n".as_slice());
    Ok(())
}

/// The script that a short text is the text of.
fn read(alloc: Global, text: &[u8]) -> Result<Script, ParseFault> {
    if text.len() > 4000 {
        return Err(ParseFault::NoMemory);
    }
    parse(alloc, text)
}

/// The line and the number of the first fault of a text, or zeros where it has none.
fn fault(alloc: Global, text: &[u8]) -> (u32, u8) {
    match read(alloc, text) {
        Ok(_) => (0, 0),
        Err(ParseFault::Refused(place)) => (place.line, place.number),
        Err(ParseFault::NoMemory) => (0, 1),
    }
}

#[test]
fn texts_are_read_or_refused(rt: HostRuntime) -> Result<(), Fail> {
    let alloc = rt.alloc();
    let text = print(alloc, &read(alloc, TEXT)?)?;
    assert!(rt; text.as_slice() == TEXT);
    let cases: [(&[u8], (u32, u8)); 8] = [
        (b"\n dcethr 01 # c\nroutine main a\nend", (0, 0)),
        (b"", (1, 5)),
        (b"dcethr 1\nroutine main a\nsay x\nelse\nend\nsay", (6, 7)),
        (b"dcethr 1\nroutine main a\nsay x\nelse\nend\n", (4, 9)),
        (b"dcethr 1\nroutine main a\n\n", (4, 8)),
        (b"dcethr 1\nroutine main a\nsay x\nend\n", (3, 16)),
        (b"dcethr 1\nmutex main\nroutine main a\nend\n", (3, 15)),
        (b"dcethr 1\nmutex m\n\n", (4, 18)),
    ];
    for (text, wanted) in cases {
        assert_eq!(rt; fault(alloc, text), wanted, "{text:?}");
    }
    Ok(())
}
