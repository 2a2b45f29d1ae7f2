//! Rows told by hand, and that memory is found, which no clause says.

use sqlite_items::Items;
use std::alloc::Global;
use std::test::Fail;
use thr_lines::lines::Lines;
use thr_lines::start::Start;
use thr_syntax::expr::{Expr, Var};
use thr_syntax::tree::{Clause, Item, Routine, Script, Stmt};
use thr_values::exception::Exc;
use thr_values::name::Name;
use thr_values::number::{Line, NameId};

fn one(alloc: Global, stmt: Stmt) -> Result<Items<Stmt>, Fail> {
    let mut body = Items::new(alloc);
    body.push(stmt)?;
    Ok(body)
}

fn names(alloc: Global, count: usize) -> Result<Items<Name>, Fail> {
    let mut names = Items::new(alloc);
    for i in 0..count {
        names.push(Name::from_slice(alloc, b"a")?)?;
    }
    Ok(names)
}

/// A try whose body is an `if` with an `else`, with two clauses.
fn tries(alloc: Global) -> Result<Stmt, Fail> {
    let raises = one(alloc, Stmt::Raise(NameId(10)))?;
    let says = one(alloc, Stmt::Say(Expr::Num(1)))?;
    let chooses = Stmt::If(Expr::Var(Var::Local(1)), raises, Some(says));
    let mut clauses = Items::new(alloc);
    clauses.push(Clause {
        names: Some(NameId(10)),
        body: one(alloc, Stmt::Say(Expr::Num(2)))?,
    })?;
    clauses.push(Clause {
        names: None,
        body: one(alloc, Stmt::Reraise)?,
    })?;
    Ok(Stmt::TryCatch(one(alloc, chooses)?, clauses))
}

/// An exception, an empty routine, and a routine with a local, a `while` and a try.
fn script(alloc: Global) -> Result<Script, Fail> {
    let sets = one(alloc, Stmt::Set(Var::Local(1), Expr::Num(0)))?;
    let mut body = one(alloc, Stmt::While(Expr::Var(Var::Local(1)), sets))?;
    body.push(tries(alloc)?)?;
    let mut items = Items::new(alloc);
    items.push(Item::Exception(NameId(10)))?;
    items.push(Item::Routine(Routine {
        name: NameId(11),
        locals: names(alloc, 1)?,
        body: Items::new(alloc),
    }))?;
    items.push(Item::Routine(Routine {
        name: NameId(12),
        locals: names(alloc, 2)?,
        body,
    }))?;
    Ok(Script {
        names: names(alloc, 13)?,
        items,
    })
}

/// Partner, next and after of each line, with 0 for none.
const ROWS: [(u32, u32, u32); 21] = [
    (0, 0, 0),
    (0, 0, 0),
    (4, 4, 5),
    (3, 0, 5),
    (21, 21, 0),
    (0, 0, 0),
    (9, 9, 10),
    (0, 0, 0),
    (7, 0, 10),
    (20, 16, 21),
    (15, 13, 16),
    (0, 0, 0),
    (0, 15, 16),
    (0, 0, 0),
    (11, 0, 16),
    (0, 18, 21),
    (0, 0, 0),
    (0, 20, 21),
    (0, 0, 0),
    (10, 0, 21),
    (5, 0, 0),
];

fn number(line: Option<Line>) -> u32 {
    match line {
        Some(line) => line.0,
        None => 0,
    }
}

#[test]
fn each_line_has_its_row(rt: HostRuntime) -> Result<(), Fail> {
    let alloc = rt.alloc();
    let lines = Lines::build(alloc, script(alloc)?)?;
    assert_eq!(rt; lines.len(), 21);
    let mut l = 0;
    for (partner, next, after) in ROWS {
        assert!(rt; l < lines.len());
        l += 1;
        let row = lines.row(Line(l));
        assert_eq!(rt; number(row.partner), partner, "partner of line {l}");
        assert_eq!(rt; number(row.next), next, "next of line {l}");
        assert_eq!(rt; number(row.after), after, "after line {l}");
    }
    let start = Start {
        line: Line(5),
        body: Line(7),
        close: Line(21),
    };
    assert_eq!(rt; lines.start(NameId(12)), Some(start));
    assert_eq!(rt; lines.routine(NameId(11)), Some(Line(3)));
    assert_eq!(rt; lines.routine(NameId(10)), None);
    assert_eq!(rt; lines.exception(NameId(10)), Some(Exc::Address(NameId(10))));
    assert_eq!(rt; lines.exception(NameId(9)), Some(Exc::Address(NameId(9))));
    assert_eq!(rt; lines.exception(NameId(11)), None);
    assert_eq!(rt; lines.script().items.len(), 3);
    Ok(())
}
