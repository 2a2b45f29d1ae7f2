//! A law on made scripts.

ghost use Rattle.std.specs.Prelude.{ℕ, ◌≤◌};
ghost use Rattle.thr_text.specs.Reading.{Formed};
ghost use Rattle.thr_verdict.specs.Made.{made};

/// The script that is made of a number keeps the rules, for 1 to 64 workers.
pub fn made_scripts_keep_the_rules()
    ensures { (n threads : ℕ) → 1 ≤ threads → threads ≤ 64 → Formed (made n threads) }
{}
