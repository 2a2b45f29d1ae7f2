//! Laws on tables of stacks.
ghost use Rattle.std.specs.Prelude.{◌≡◌, ℕ};
ghost use Rattle.std.specs.Option.{option_map};
ghost use Rattle.thr_syntax.specs.declared.tree.Script.{Script};
ghost use Rattle.thr_remainder.specs.Remainders.{Setting};
ghost use Rattle.thr_parts.specs.Tables.{Table, none, get, has, put, cut};
ghost use Rattle.thr_frames.specs.Stacks.{StackView, IsStack, remainder_of, setting_of};
ghost use Rattle.thr_stacks.specs.Stacks.{remainders_of, StacksStand};

/// What is left to do in threads after a change of one stack is what was left, with the same change.
pub fn remainders_change_with_stacks()
    ensures none { (s : Script) → remainders_of s none ≡ none }
    ensures put { (s : Script) (m : Table StackView) (t : ℕ) (k : StackView) → remainders_of s (put m t k) ≡ put (remainders_of s m) t (remainder_of s k) }
    ensures cut { (s : Script) (m : Table StackView) (t : ℕ) → remainders_of s (cut m t) ≡ cut (remainders_of s m) t }
    ensures get { (s : Script) (m : Table StackView) (t : ℕ) → get (remainders_of s m) t ≡ option_map (remainder_of s) (get m t) }
    ensures has { (s : Script) (m : Table StackView) (t : ℕ) → has (remainders_of s m) t ≡ has m t }
{}

/// Stacks go on standing on their lines where one is put that stands on them, and where one is taken out.
pub fn stacks_go_on_standing()
    ensures none { (s : Script) (setting : ℕ → Setting) → StacksStand s none setting }
    ensures put { (s : Script) (m : Table StackView) (setting : ℕ → Setting) (t : ℕ) (k : StackView) → StacksStand s m setting → IsStack s k → setting_of s k ≡ setting t → StacksStand s (put m t k) setting }
    ensures cut { (s : Script) (m : Table StackView) (setting : ℕ → Setting) (t : ℕ) → StacksStand s m setting → StacksStand s (cut m t) setting }
{}
