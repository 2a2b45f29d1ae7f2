//! The pipes that a script declares.
ghost use Rattle.std.specs.Prelude.{◌≡◌, IfOk};
ghost use Rattle.thr_parts.specs.Pipes.{declared_pipes};
ghost use Rattle.thr_pipes.specs.Opening.{FitTables};

use crate::pipe::Pipe;
use std::alloc::Global;
use thr_syntax::tree::Item;
use thr_tables::Slots;
use thr_values::number::NoMemory;

/// The pipes that these declarations declare, each open and empty.
pub fn declared(alloc: Global, items: &[Item]) -> Result<Slots<Pipe>, NoMemory>
    requires { FitTables items.now }
    ensures { IfOk result (λ pipes. pipes ≡ declared_pipes items.now) }
{
    let mut pipes = Slots::new(alloc)?;
    let mut i = items.len();
    while i > 0 {
        i -= 1;
        if let Item::Pipe(name, capacity) = &items[i] {
            let pipe = Pipe::new(alloc, *capacity)?;
            pipes.put(*name, pipe);
        }
    }
    Ok(pipes)
}
