//! Laws on histories of one processor.

ghost use Rattle.std.specs.Prelude.{◌≢◌, List};
ghost use Rattle.thr_values.specs.declared.history.Entry.{Entry};
ghost use Rattle.thr_values.specs.declared.event.Stop.{Stop};
ghost use Rattle.thr_values.specs.declared.event.Stop.TheVariants as stops;
ghost use Rattle.thr_syntax.specs.declared.tree.Script.{Script};
ghost use Rattle.thr_model.specs.Histories.{Legal};
ghost use Rattle.thr_alone.specs.Only.{IsOnlyHistory};

use thr_model::laws::one_processor_has_one_event;

/// On one processor each script has one legal history, but for those that want of memory cuts short.
pub fn one_processor_has_one_history()
    ensures { (s : Script) (entries : List Entry) (stop : Stop) → Legal s 1 entries stop → stop ≢ stops.Memory → IsOnlyHistory s entries stop }
{
    one_processor_has_one_event();
}
