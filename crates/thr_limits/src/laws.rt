//! Laws of the limits.

ghost use Rattle.std.specs.Prelude.{◌≡◌, true};
ghost use Rattle.thr_syntax.specs.declared.tree.Script.{Script};
ghost use Rattle.thr_text.specs.Reading.{Formed};
ghost use Rattle.thr_limits.specs.Limits.{within_limits};

/// A script that keeps the rules keeps the limits (docs/script.md, "Faults", F18).
pub fn formed_scripts_keep_the_limits()
    ensures { (s : Script) → Formed s → within_limits s ≡ true }
{}
