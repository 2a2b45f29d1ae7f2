//! The names of a made script.

ghost use Rattle.std.specs.Prelude.{◌≡◌, ◌≤◌, ◌∷◌, [], ◌++◌, map, codes, IfOk, OnOk};
ghost use Rattle.thr_values.specs.Exceptions.{builtin_names};
ghost use Rattle.thr_values.specs.Names.{IsNameText};
ghost use Rattle.thr_verdict.specs.Made.{made_names, numbers_from, worker_text};

use sqlite_items::Items;
use std::alloc::{AllocError, Global};
use thr_values::name::Name;

/// A name.
pub(crate) fn name(alloc: Global, text: &[u8]) -> Result<Name, AllocError>
    requires { IsNameText text.now }
    ensures { IfOk result (λ n. n ≡ text.now) }
{
    Name::from_slice(alloc, text)
}

/// Adds a name.
fn add(alloc: Global, all: &mut Items<Name>, text: &[u8]) -> Result<(), AllocError>
    requires { IsNameText text.now }
    ensures { OnOk result (all.new ≡ all.old ++ text.now ∷ []) }
{
    all.push(name(alloc, text)?)
}

/// Adds the first five built-in exceptions.
fn add_first_builtins(alloc: Global, all: &mut Items<Name>) -> Result<(), AllocError>
    ensures { OnOk result (all.new ≡ all.old ++ codes "cancel_e" ∷ codes "badparam_e" ∷ codes "use_error_e" ∷ codes "existence_e" ∷ codes "in_use_e" ∷ []) }
{
    add(alloc, all, b"cancel_e")?;
    add(alloc, all, b"badparam_e")?;
    add(alloc, all, b"use_error_e")?;
    add(alloc, all, b"existence_e")?;
    add(alloc, all, b"in_use_e")?;
    Ok(())
}

/// Adds the last five.
fn add_last_builtins(alloc: Global, all: &mut Items<Name>) -> Result<(), AllocError>
    ensures { OnOk result (all.new ≡ all.old ++ codes "exhaust_e" ∷ codes "pipe_e" ∷ codes "intovf_e" ∷ codes "intdiv_e" ∷ codes "stackovf_e" ∷ []) }
{
    add(alloc, all, b"exhaust_e")?;
    add(alloc, all, b"pipe_e")?;
    add(alloc, all, b"intovf_e")?;
    add(alloc, all, b"intdiv_e")?;
    add(alloc, all, b"stackovf_e")?;
    Ok(())
}

/// Adds the built-in exceptions.
fn add_builtins(alloc: Global, all: &mut Items<Name>) -> Result<(), AllocError>
    ensures { OnOk result (all.new ≡ all.old ++ builtin_names) }
{
    add_first_builtins(alloc, all)?;
    add_last_builtins(alloc, all)
}

/// Adds the mutex, the exception and the shared variables.
fn add_objects(alloc: Global, all: &mut Items<Name>) -> Result<(), AllocError>
    ensures { OnOk result (all.new ≡ all.old ++ codes "m" ∷ codes "odd" ∷ codes "total" ∷ codes "caught" ∷ []) }
{
    all.push(name(alloc, b"m")?)?;
    all.push(name(alloc, b"odd")?)?;
    all.push(name(alloc, b"total")?)?;
    all.push(name(alloc, b"caught")?)
}

/// The name of a worker.
fn worker_name(alloc: Global, i: u32) -> Result<Name, AllocError>
    ensures { IfOk result (λ n. n ≡ worker_text i) }
{
    let number = i.to_string(alloc)?;
    let mut text = Vec::new(alloc);
    text.push(b'w')?;
    text.extend_from_slice(number.as_bytes())?;
    name(alloc, text.as_slice())
}

/// Adds the names of the workers.
fn add_workers(alloc: Global, all: &mut Items<Name>, threads: u32) -> Result<(), AllocError>
    requires { threads ≤ 64 }
    ensures { OnOk result (all.new ≡ all.old ++ map worker_text (numbers_from 1 threads)) }
{
    let mut i = 1;
    while i <= threads {
        all.push(worker_name(alloc, i)?)?;
        i += 1;
    }
    Ok(())
}

/// The names of the script with so many workers.
pub(crate) fn names_of(alloc: Global, threads: u32) -> Result<Items<Name>, AllocError>
    requires { threads ≤ 64 }
    ensures { IfOk result (λ all. all ≡ made_names threads) }
{
    let mut all = Items::new(alloc);
    add_builtins(alloc, &mut all)?;
    add_objects(alloc, &mut all)?;
    add_workers(alloc, &mut all, threads)?;
    all.push(name(alloc, b"main")?)?;
    Ok(all)
}
