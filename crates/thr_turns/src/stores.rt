//! What replies store in shared variables.

ghost use Rattle.std.specs.Prelude.{◌≡◌, ◌<◌, IfSome};
ghost use Rattle.thr_parts.specs.Tables.{names};
ghost use Rattle.thr_model.specs.States.{with_writes};
ghost use Rattle.thr_frames.specs.Replies.{listed_writes};
ghost use Rattle.thr_shared.specs.Shared.{with_written};

use thr_frames::reply::Writes;
use thr_shared::SharedVariables;
use thr_values::number::NameId;

/// The shared variable that is there has its value from now on, if one is.
pub fn put(shared: &mut SharedVariables, write: Option<(NameId, i64)>)
    requires fit { IfSome write (λ w. w.0.0 < names) }
    ensures { shared.new ≡ with_written shared.old write }
{
    if let Some((name, value)) = write {
        shared.put(name, value);
    }
}

/// The shared variables that a reply writes have their values from now on, the first before the second.
pub fn put_all(shared: &mut SharedVariables, writes: Writes)
    requires first { IfSome writes.first (λ w. w.0.0 < names) }
    requires second { IfSome writes.second (λ w. w.0.0 < names) }
    ensures { shared.new ≡ with_writes shared.old (listed_writes writes) }
{
    put(shared, writes.first);
    put(shared, writes.second);
}
