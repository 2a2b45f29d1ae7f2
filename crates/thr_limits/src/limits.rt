//! The limits of a script.

ghost use Rattle.std.specs.Prelude.{◌≡◌, nat_le, length, map};
ghost use Rattle.std.specs.List.{list_all, filter};
ghost use Rattle.thr_syntax.specs.Lines.{joined, clause_form, stmt_lines, body_lines, head_lines, item_lines};
ghost use Rattle.thr_syntax.specs.Spelling.{form_words, interface_word};
ghost use Rattle.thr_syntax.specs.Canon.{script_words};
ghost use Rattle.thr_syntax.specs.declared.form.Form.TheVariants as Form;
ghost use Rattle.thr_syntax.specs.declared.tree.Item.TheVariants as Item;
ghost use Rattle.thr_text.specs.Reading.{Formed};
ghost use Rattle.thr_limits.specs.Limits as text;
ghost use Rattle.thr_limits.specs.Capped.{capped};
ghost use Rattle.thr_limits.specs.Walks.{opens_at_most, is_body_within, is_clause_within, clauses_lines, first_form, are_short, is_stmt_short, is_body_short, is_clause_short, is_item_short};
ghost use Rattle.thr_limits.specs.Widths.{nothing, after_words, spelled, is_short_form};

use crate::width::{Scope, Width, add, call_width, cap};
use thr_syntax::tree::{Clause, Item, Routine, Script, Stmt};
use thr_text::fixed::interface_text;
use thr_values::name::Name;
use thr_values::number::NameId;

// ---- blocks

/// Whether each statement opens at most `left` blocks in one another.
#[cycle(stmt_depths)]
fn is_body_within(left: u8, body: &[Stmt]) -> bool
    ensures { result ≡ is_body_within left body.now }
{
    for stmt in body {
        if !is_stmt_within(left, stmt) {
            return false;
        }
    }
    true
}

/// Whether each clause opens at most `left` blocks in one another.
#[cycle(stmt_depths)]
fn are_clauses_within(left: u8, clauses: &[Clause]) -> bool
    ensures { result ≡ list_all (is_clause_within left) clauses.now }
{
    for clause in clauses {
        if !is_body_within(left, clause.body.as_slice()) {
            return false;
        }
    }
    true
}

/// Whether a statement opens at most `left` blocks in one another.
#[cycle(stmt_depths)]
#[tactic(auto, using(crate::proofs::DepthLaws::depth_laws))]
fn is_stmt_within(left: u8, stmt: &Stmt) -> bool
    ensures { result ≡ opens_at_most left stmt.now }
{
    match stmt {
        Stmt::If(_, body, other) => {
            if left == 0 || !is_body_within(left - 1, body.as_slice()) {
                return false;
            }
            match other {
                None => true,
                Some(other) => is_body_within(left - 1, other.as_slice()),
            }
        }
        Stmt::While(_, body) => left > 0 && is_body_within(left - 1, body.as_slice()),
        Stmt::TryCatch(body, clauses) => {
            left > 0
                && is_body_within(left - 1, body.as_slice())
                && are_clauses_within(left - 1, clauses.as_slice())
        }
        Stmt::TryFinally(body, last) => {
            left > 0
                && is_body_within(left - 1, body.as_slice())
                && is_body_within(left - 1, last.as_slice())
        }
        Stmt::Set(_, _)
        | Stmt::Say(_)
        | Stmt::Raise(_)
        | Stmt::Reraise
        | Stmt::Call(_, _, _)
        | Stmt::Return(_)
        | Stmt::Exit(_)
        | Stmt::Dce(_) => true,
    }
}

// ---- how many lines

/// How many lines a body has, as far as the type goes.
#[cycle(stmt_counts)]
fn body_count(body: &[Stmt]) -> u32
    ensures { result ≡ capped (length (body_lines body.now)) }
{
    let mut count = 0;
    for stmt in body {
        count = add(count, stmt_count(stmt));
    }
    count
}

/// How many lines clauses have, as far as the type goes.
#[cycle(stmt_counts)]
fn clauses_count(clauses: &[Clause]) -> u32
    ensures { result ≡ capped (length (clauses_lines clauses.now)) }
{
    let mut count = 0;
    for clause in clauses {
        count = add(count, add(body_count(clause.body.as_slice()), 1));
    }
    count
}

/// How many lines a statement has, as far as the type goes.
#[cycle(stmt_counts)]
#[tactic(auto, using(crate::proofs::CountLaws::count_laws))]
fn stmt_count(stmt: &Stmt) -> u32
    ensures { result ≡ capped (length (stmt_lines stmt.now)) }
{
    match stmt {
        Stmt::If(_, body, other) => {
            let count = body_count(body.as_slice());
            match other {
                None => add(count, 2),
                Some(other) => add(add(count, body_count(other.as_slice())), 3),
            }
        }
        Stmt::While(_, body) => add(body_count(body.as_slice()), 2),
        Stmt::TryCatch(body, clauses) => {
            add(
                add(
                    body_count(body.as_slice()),
                    clauses_count(clauses.as_slice()),
                ),
                2,
            )
        }
        Stmt::TryFinally(body, last) => {
            add(
                add(body_count(body.as_slice()), body_count(last.as_slice())),
                3,
            )
        }
        Stmt::Set(_, _)
        | Stmt::Say(_)
        | Stmt::Raise(_)
        | Stmt::Reraise
        | Stmt::Call(_, _, _)
        | Stmt::Return(_)
        | Stmt::Exit(_)
        | Stmt::Dce(_) => 1,
    }
}

/// How many lines a declaration has, as far as the type goes.
#[tactic(auto, using(crate::proofs::CountLaws::count_Routine))]
fn item_count(item: &Item) -> u32
    ensures { result ≡ capped (length (item_lines item.now)) }
{
    match item {
        Item::Routine(routine) => {
            let names = cap(routine.locals.len());
            add(add(names, body_count(routine.body.as_slice())), 1)
        }
        Item::Interface(_)
        | Item::Limit(_)
        | Item::Shared(_, _)
        | Item::Exception(_)
        | Item::Status(_, _)
        | Item::Mutex(_)
        | Item::MutexAttr(_)
        | Item::Cond(_)
        | Item::Attr(_)
        | Item::Key(_)
        | Item::Once(_)
        | Item::Pipe(_, _) => 1,
    }
}

/// How many lines declarations have, as far as the type goes.
fn items_count(items: &[Item]) -> u32
    ensures { result ≡ capped (length (joined (map item_lines items.now))) }
{
    let mut count = 0;
    for item in items {
        count = add(count, item_count(item));
    }
    count
}

/// How many lines the canonical text of a script has, as far as the type goes. A journal says it of its script.
pub fn line_count(s: &Script) -> u32
    ensures counted { result ≡ capped (length (script_words s.now)) }
    ensures exact { Formed s.now → result ≡ length (script_words s.now) }
{
    add(items_count(s.items.as_slice()), 1)
}

/// Whether the canonical text has at most 20,000 lines.
#[tactic(auto, using(crate::proofs::CountLaws::few_lines))]
fn has_few_lines(s: &Script) -> bool
    ensures { result ≡ text.has_few_lines s.now }
{
    items_count(s.items.as_slice()) < 20_000
}

// ---- how long lines are

/// The width of the line of a statement.
#[tactic(auto, using(crate::proofs::WidthLaws::after_words_append))]
fn stmt_width(scope: &Scope, stmt: &Stmt) -> Width
    ensures { result ≡ after_words nothing (form_words (spelled scope.now) (first_form stmt.now)) }
{
    let line = Width::new();
    match stmt {
        Stmt::Set(v, e) => line.word(b"set").variable(scope, *v).expression(scope, e),
        Stmt::Say(e) => line.word(b"say").expression(scope, e),
        Stmt::If(e, _, _) => line.word(b"if").expression(scope, e),
        Stmt::While(e, _) => line.word(b"while").expression(scope, e),
        Stmt::TryCatch(_, _) | Stmt::TryFinally(_, _) => line.word(b"try"),
        Stmt::Raise(x) => line.word(b"raise").name(scope, *x),
        Stmt::Reraise => line.word(b"reraise"),
        Stmt::Call(name, e, place) => {
            line.word(b"call")
                .name(scope, *name)
                .expression(scope, e)
                .local_if(scope, *place)
        }
        Stmt::Return(e) => line.word(b"return").expression(scope, e),
        Stmt::Exit(e) => line.word(b"pthread_exit").expression(scope, e),
        Stmt::Dce(call) => call_width(scope, call),
    }
}

/// Whether the line of a statement, which its bodies follow, is short enough.
#[tactic(auto, using(crate::proofs::WidthLaws::short_width))]
fn is_first_line_short(scope: &Scope, stmt: &Stmt) -> bool
    ensures { result ≡ is_short_form (spelled scope.now) (first_form stmt.now) }
{
    stmt_width(scope, stmt).is_short()
}

/// The width of the line of a clause.
fn clause_width(scope: &Scope, clause: &Clause) -> Width
    ensures { result ≡ after_words nothing (form_words (spelled scope.now) (clause_form clause.now.names)) }
{
    match clause.names {
        Some(name) => Width::new().word(b"catch").name(scope, name),
        None => Width::new().word(b"catch_all"),
    }
}

/// Whether the line of a clause is short enough.
#[tactic(auto, using(crate::proofs::WidthLaws::short_width))]
fn is_clause_line_short(scope: &Scope, clause: &Clause) -> bool
    ensures { result ≡ is_short_form (spelled scope.now) (clause_form clause.now.names) }
{
    clause_width(scope, clause).is_short()
}

/// Whether each line of a body is short enough.
#[cycle(stmt_shapes)]
fn is_body_short(scope: &Scope, body: &[Stmt]) -> bool
    ensures { result ≡ is_body_short (spelled scope.now) body.now }
{
    for stmt in body {
        if !is_stmt_short(scope, stmt) {
            return false;
        }
    }
    true
}

/// Whether each line of clauses is short enough.
#[cycle(stmt_shapes)]
fn are_clauses_short(scope: &Scope, clauses: &[Clause]) -> bool
    ensures { result ≡ list_all (is_clause_short (spelled scope.now)) clauses.now }
{
    for clause in clauses {
        if !is_clause_line_short(scope, clause) || !is_body_short(scope, clause.body.as_slice()) {
            return false;
        }
    }
    true
}

/// Whether each line of a statement is short enough.
#[cycle(stmt_shapes)]
#[tactic(auto, using(crate::proofs::ShortLaws::short_laws))]
fn is_stmt_short(scope: &Scope, stmt: &Stmt) -> bool
    ensures { result ≡ is_stmt_short (spelled scope.now) stmt.now }
{
    if !is_first_line_short(scope, stmt) {
        return false;
    }
    match stmt {
        Stmt::If(_, body, other) => {
            if !is_body_short(scope, body.as_slice()) {
                return false;
            }
            match other {
                None => true,
                Some(other) => is_body_short(scope, other.as_slice()),
            }
        }
        Stmt::While(_, body) => is_body_short(scope, body.as_slice()),
        Stmt::TryCatch(body, clauses) => {
            is_body_short(scope, body.as_slice()) && are_clauses_short(scope, clauses.as_slice())
        }
        Stmt::TryFinally(body, last) => {
            is_body_short(scope, body.as_slice()) && is_body_short(scope, last.as_slice())
        }
        Stmt::Set(_, _)
        | Stmt::Say(_)
        | Stmt::Raise(_)
        | Stmt::Reraise
        | Stmt::Call(_, _, _)
        | Stmt::Return(_)
        | Stmt::Exit(_)
        | Stmt::Dce(_) => true,
    }
}

/// Whether the line of a local is short enough.
#[tactic(auto, using(crate::proofs::WidthLaws::short_width))]
fn is_local_short(scope: &Scope, name: &Name) -> bool
    ensures { result ≡ is_short_form (spelled scope.now) (Form.Local name.now) }
{
    Width::new().word(b"local").word(name.as_slice()).is_short()
}

fn are_locals_short(scope: &Scope, names: &[Name]) -> bool
    ensures { result ≡ list_all (λ n. is_short_form (spelled scope.now) (Form.Local n)) names.now }
{
    names.iter().all(|name| is_local_short(scope, name))
}

/// Whether the line of a routine with this parameter is short enough.
#[tactic(auto, using(crate::proofs::WidthLaws::short_width))]
fn is_routine_line_short(scope: &Scope, name: NameId, parameter: &Name) -> bool
    ensures { result ≡ is_short_form (spelled scope.now) (Form.Routine name parameter.now) }
{
    Width::new()
        .word(b"routine")
        .name(scope, name)
        .word(parameter.as_slice())
        .is_short()
}

/// Whether the lines above the body of a routine are short enough.
fn is_head_short(scope: &Scope, name: NameId) -> bool
    ensures { result ≡ are_short (spelled scope.now) (head_lines name scope.now.locals.now) }
{
    match scope.locals.split_first() {
        None => true,
        Some((parameter, locals)) => {
            is_routine_line_short(scope, name, parameter) && are_locals_short(scope, locals)
        }
    }
}

/// Whether each line of a routine is short enough.
fn is_routine_short(names: &[Name], routine: &Routine) -> bool
    ensures { result ≡ is_item_short names.now (Item.Routine routine.now) }
{
    let scope = Scope {
        names,
        locals: routine.locals.as_slice(),
    };
    is_head_short(&scope, routine.name) && is_body_short(&scope, routine.body.as_slice())
}

/// Whether each line of a declaration is short enough.
#[tactic(auto, using(crate::proofs::ShortLaws::short_one))]
fn is_item_short(names: &[Name], item: &Item) -> bool
    ensures { result ≡ is_item_short names.now item.now }
{
    let scope = &Scope { names, locals: &[] };
    let line = Width::new();
    match item {
        Item::Interface(i) => line.word(b"interface").word(interface_text(*i)).is_short(),
        Item::Limit(n) => line.word(b"limit").number(i64::from(*n)).is_short(),
        Item::Shared(name, n) => line
            .word(b"shared")
            .name(scope, *name)
            .number(*n)
            .is_short(),
        Item::Exception(name) => line.word(b"exception").name(scope, *name).is_short(),
        Item::Status(name, n) => line
            .word(b"status")
            .name(scope, *name)
            .number(*n)
            .is_short(),
        Item::Mutex(name) => line.word(b"mutex").name(scope, *name).is_short(),
        Item::MutexAttr(name) => line.word(b"mutexattr").name(scope, *name).is_short(),
        Item::Cond(name) => line.word(b"cond").name(scope, *name).is_short(),
        Item::Attr(name) => line.word(b"attr").name(scope, *name).is_short(),
        Item::Key(name) => line.word(b"key").name(scope, *name).is_short(),
        Item::Once(name) => line.word(b"once").name(scope, *name).is_short(),
        Item::Pipe(name, n) => line
            .word(b"pipe")
            .name(scope, *name)
            .number(i64::from(*n))
            .is_short(),
        Item::Routine(routine) => is_routine_short(names, routine),
    }
}

fn are_items_short(names: &[Name], items: &[Item]) -> bool
    ensures { result ≡ list_all (is_item_short names.now) items.now }
{
    items.iter().all(|item| is_item_short(names, item))
}

/// Whether no line of the canonical text has more than 24 words or 240 bytes.
#[tactic(auto, using(crate::proofs::ShortLaws::short_script))]
fn has_short_lines(s: &Script) -> bool
    ensures { result ≡ text.has_short_lines s.now }
{
    are_items_short(s.names.as_slice(), s.items.as_slice())
}

// ---- names, locals and numbers

fn has_name(item: &Item) -> bool
    ensures { result ≡ text.has_name item.now }
{
    !matches!(item, Item::Interface(_) | Item::Limit(_))
}

/// How many names are declared.
fn name_count(items: &[Item]) -> usize
    ensures { result ≡ length (filter text.has_name items.now) }
{
    let mut count = 0;
    for item in items {
        if has_name(item) {
            count += 1;
        }
    }
    count
}

/// Whether at most 1,000 names are declared.
fn has_few_names(s: &Script) -> bool
    ensures { result ≡ text.has_few_names s.now }
{
    name_count(s.items.as_slice()) <= 1000
}

/// Whether the blocks of a declaration are at most 32 deep, a routine itself at depth 1.
#[tactic(auto, using(crate::proofs::DepthLaws::depth_Routine))]
fn is_shallow(item: &Item) -> bool
    ensures { result ≡ text.is_shallow item.now }
{
    match item {
        Item::Routine(routine) => is_body_within(31, routine.body.as_slice()),
        _ => true,
    }
}

/// Whether a routine has at most 16 locals, its parameter among them.
fn has_few_locals(item: &Item) -> bool
    ensures { result ≡ text.has_few_locals item.now }
{
    match item {
        Item::Routine(routine) => routine.locals.len() <= 16,
        _ => true,
    }
}

/// Whether the number of a `limit` or a `pipe` is in its range.
fn is_in_range(item: &Item) -> bool
    ensures { result ≡ text.is_in_range item.now }
{
    match item {
        Item::Limit(n) => 1 <= *n && *n <= 1_000_000,
        Item::Pipe(_, n) => 1 <= *n && *n <= 4096,
        _ => true,
    }
}

fn are_shallow(items: &[Item]) -> bool
    ensures { result ≡ list_all text.is_shallow items.now }
{
    items.iter().all(|item| is_shallow(item))
}

fn have_few_locals(items: &[Item]) -> bool
    ensures { result ≡ list_all text.has_few_locals items.now }
{
    items.iter().all(|item| has_few_locals(item))
}

fn are_in_range(items: &[Item]) -> bool
    ensures { result ≡ list_all text.is_in_range items.now }
{
    items.iter().all(|item| is_in_range(item))
}

/// Whether a script keeps the limits (docs/script.md, "Faults": F18, and the lengths of F2 and F4). Nothing is allocated, and
/// each part of the tree is looked at a bounded number of times. The depth is judged first, so that no walk goes deeper than
/// 32 blocks; it goes as deep as the script's expressions.
pub fn within_limits(s: &Script) -> bool
    ensures { result ≡ text.within_limits s.now }
{
    let items = s.items.as_slice();
    are_shallow(items)
        && have_few_locals(items)
        && are_in_range(items)
        && has_few_names(s)
        && has_few_lines(s)
        && has_short_lines(s)
}
