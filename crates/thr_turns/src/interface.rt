//! The interface of a script.

ghost use Rattle.std.specs.Prelude.{◌≡◌};
ghost use Rattle.thr_remainder.specs.Declarations.{interface_in, interface_of};

use thr_syntax::tree::{Interface, Item, Script};

/// The interface that these declarations set.
fn interface_in(items: &[Item]) -> Interface
    ensures { result ≡ interface_in items.now }
{
    for item in items {
        if let Item::Interface(interface) = item {
            return *interface;
        }
    }
    Interface::Exc
}

/// The interface of the script, which says whether error replies raise (docs/machine.md, "Errors").
pub fn interface_of(script: &Script) -> Interface
    ensures { result ≡ interface_of script.now }
{
    interface_in(script.items.as_slice())
}
