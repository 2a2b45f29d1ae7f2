//! The script that is made of two numbers.

ghost use Rattle.std.specs.Prelude.{◌≡◌, ◌≤◌, ◌∷◌, [], ◌++◌, map, pos, IfOk, OnOk};
ghost use Rattle.thr_syntax.specs.declared.tree.Item.TheVariants as item;
ghost use Rattle.thr_verdict.specs.Made.{m, odd, total, caught, made, numbers_from, worker_routine, rounds, share};

use crate::names::names_of;
use crate::numbers::{rounds, share};
use crate::routines::{main_of, worker};
use crate::statements::{CAUGHT, MUTEX, ODD, TOTAL};
use sqlite_items::Items;
use std::alloc::{AllocError, Global};
use thr_syntax::tree::{Item, Script};
use thr_values::number::NoMemory;

/// Adds the declarations of objects.
fn add_objects(all: &mut Items<Item>) -> Result<(), AllocError>
    ensures { OnOk result (all.new ≡ all.old ++ item.Limit 1000000 ∷ item.Mutex m ∷ item.Exception odd ∷ item.Shared total (pos 0) ∷ item.Shared caught (pos 0) ∷ []) }
{
    all.push(Item::Limit(1000000))?;
    all.push(Item::Mutex(MUTEX))?;
    all.push(Item::Exception(ODD))?;
    all.push(Item::Shared(TOTAL, 0))?;
    all.push(Item::Shared(CAUGHT, 0))
}

/// Adds the routines of the workers.
fn add_workers(alloc: Global, all: &mut Items<Item>, n: u32, threads: u32) -> Result<(), AllocError>
    requires { threads ≤ 64 }
    ensures { OnOk result (all.new ≡ all.old ++ map (λ i. worker_routine i (rounds n i) (share n i)) (numbers_from 1 threads)) }
{
    let mut i = 1;
    while i <= threads {
        all.push(worker(alloc, i, rounds(n, i), share(n, i))?)?;
        i += 1;
    }
    Ok(())
}

fn script_of(alloc: Global, n: u32, threads: u32) -> Result<Script, AllocError>
    requires { threads ≤ 64 }
    ensures { IfOk result (λ s. s ≡ made n threads) }
{
    let names = names_of(alloc, threads)?;
    let mut items = Items::new(alloc);
    add_objects(&mut items)?;
    add_workers(alloc, &mut items, n, threads)?;
    items.push(main_of(alloc, threads)?)?;
    Ok(Script { names, items })
}

/// The script that is made of a number for so many workers (docs/script.md, "Made scripts").
pub fn make_script(alloc: Global, n: u32, threads: u32) -> Result<Script, NoMemory>
    requires { threads ≤ 64 }
    ensures { IfOk result (λ s. s ≡ made n threads) }
{
    script_of(alloc, n, threads).map_err(|_| NoMemory)
}
