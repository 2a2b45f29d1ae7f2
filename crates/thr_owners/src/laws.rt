//! The laws.

ghost use Rattle.std.specs.Prelude.{◌≡◌, ℕ, List, Option, Some, None};
ghost use Rattle.thr_values.specs.declared.event.Stop.{Stop};
ghost use Rattle.thr_values.specs.declared.history.Entry.{Entry};
ghost use Rattle.thr_values.specs.declared.reply.Kind.{Kind};
ghost use Rattle.thr_syntax.specs.declared.tree.Script.{Script};
ghost use Rattle.thr_parts.specs.declared.mutex.Mutex.{Mutex};
ghost use Rattle.thr_parts.specs.Tables.{get};
ghost use Rattle.thr_parts.specs.Mutexes.{mutex_at};
ghost use Rattle.thr_parts.specs.Mutexes as parts;
ghost use Rattle.thr_model.specs.Histories.{Execution, History, Legal};
ghost use Rattle.thr_laws.specs.Owners.{Lock, OneOwner, owner, kind_in};
ghost use Rattle.thr_owners.specs.Told.{as_told, known_of};

/// No mutex has two owners in a legal history, nor has the global lock; nor in any history, whether or not it stops there.
pub fn no_mutex_has_two_owners()
    ensures legal { (s : Script) (n : ℕ) (entries : List Entry) (stop : Stop) → Legal s n entries stop → OneOwner entries }
    ensures all { (s : Script) (n : ℕ) (x : Execution) → History s n x → OneOwner x.entries }
{}

/// After every history the owner and the depth of each lock that the lines tell are those that the machine's state keeps.
pub fn owners_are_those_of_the_state()
    ensures { (s : Script) (n : ℕ) (x : Execution) → History s n x → (lock : Lock) → owner x.entries lock ≡ as_told (parts.owner x.state.locks lock) }
{}

/// After every history the kinds that the lines tell are those that the machine's state keeps, of attribute cells and of
/// mutexes that are made, and of the global lock.
pub fn kinds_are_those_of_the_state()
    ensures cells { (s : Script) (n : ℕ) (x : Execution) → History s n x → (lock : Lock) (cell : ℕ) (kind : Kind) → get x.state.locks.kinds cell ≡ Some kind
        → kind_in (known_of lock x.entries).cells cell ≡ kind }
    ensures locks { (s : Script) (n : ℕ) (x : Execution) → History s n x → (lock : Lock) (mutex : Mutex) → mutex_at x.state.locks lock ≡ Some mutex
        → (known_of lock x.entries).kind ≡ mutex.kind }
{}
