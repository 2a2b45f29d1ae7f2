//! Both tables on their happy path at concrete types, and that memory is found for them, which no clause says.

use std::alloc::Global;
use std::test::Fail;
use thr_tables::{Numbered, Slots};
use thr_values::number::{NameId, Tid};

const NAME: NameId = NameId(3);

const LAST: NameId = NameId(1009);

/// The list of items at the name is one item longer.
fn add(slots: &mut Slots<Vec<u64>>, alloc: Global, item: u64) -> Result<(), Fail> {
    let mut items = match slots.take(NAME) {
        Some(items) => items,
        None => Vec::new(alloc),
    };
    items.push(item)?;
    slots.put(NAME, items);
    Ok(())
}

/// The value stands at the number from now on, where there is room.
fn put(table: &mut Numbered<u64, 4>, t: Tid, value: u64) -> Result<(), Fail> {
    if table.len() >= 4 {
        return Err(Fail::from("there is no room"));
    }
    table.put(t, value);
    Ok(())
}

#[test]
fn tables_have_what_was_put(rt: HostRuntime) -> Result<(), Fail> {
    let alloc = rt.alloc();
    let mut slots: Slots<u64> = Slots::new(alloc)?;
    slots.put(LAST, 5);
    slots.put(NAME, 6);
    slots.cut(NAME);
    assert_eq!(rt; slots.get(NAME), None);
    assert_eq!(rt; slots.get(LAST), Some(5));
    let mut lists: Slots<Vec<u64>> = Slots::new(alloc)?;
    add(&mut lists, alloc, 1)?;
    add(&mut lists, alloc, 2)?;
    assert_eq!(rt; lists.lend(NAME).map_or(0, |items| items.len()), 2);
    let mut table: Numbered<u64, 4> = Numbered::new(alloc)?;
    put(&mut table, Tid(9), 90)?;
    put(&mut table, Tid(4000000000), 40)?;
    put(&mut table, Tid(2), 20)?;
    put(&mut table, Tid(5), 50)?;
    table.cut(Tid(9));
    table.retain(|e| e.1 != 50);
    assert_eq!(rt; table.entries(), [(2, 20), (4000000000, 40)].as_slice());
    assert_eq!(rt; table.get(Tid(2)), Some(20));
    Ok(())
}
