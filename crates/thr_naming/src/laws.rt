//! Which line has the first fault of the third pass.

ghost use Rattle.std.specs.Prelude.{◌≡◌, ◌<◌, ◌≤◌, ◌⊎◌, ℕ, Some, List};
ghost use Rattle.thr_text.specs.Faults.{first_of};
ghost use Rattle.thr_text.specs.Blocks.{Line};
ghost use Rattle.thr_text.specs.NameFaults.{name_faults};
ghost use Rattle.thr_naming.specs.Misnamed.{IsFirstMisnamed, HasNoMain, IsMisnamedInTime, IsTooLong};

/// The first fault of the third pass over a text of at most 20,000 lines is at a line exactly where all lines above keep the
/// rules for names and the limits and it doesn't, and is its least; or it is F18 at the line after the last, exactly where all
/// lines do and no routine is named `main`. In a longer text it is at a line exactly where that fault comes before F18 of line
/// 20,001, and else it is the latter (docs/script.md, "Faults").
pub fn first_misnamed_lines_are_told()
    ensures says { (end : ℕ) (lines : List Line) (fault : ℕ × ℕ) → end ≤ 20001
        → first_of (name_faults end lines) ≡ Some fault → IsFirstMisnamed lines fault ⊎ HasNoMain end lines fault }
    ensures comes { (end : ℕ) (lines : List Line) (fault : ℕ × ℕ) → end ≤ 20001 → IsFirstMisnamed lines fault
        → first_of (name_faults end lines) ≡ Some fault }
    ensures comes_at_the_end { (end : ℕ) (lines : List Line) (fault : ℕ × ℕ) → end ≤ 20001
        → HasNoMain end lines fault → first_of (name_faults end lines) ≡ Some fault }
    ensures says_too_long { (end : ℕ) (lines : List Line) (fault : ℕ × ℕ) → 20001 < end
        → first_of (name_faults end lines) ≡ Some fault → IsMisnamedInTime lines fault ⊎ IsTooLong lines fault }
    ensures comes_in_time { (end : ℕ) (lines : List Line) (fault : ℕ × ℕ) → 20001 < end
        → IsMisnamedInTime lines fault → first_of (name_faults end lines) ≡ Some fault }
    ensures comes_too_long { (end : ℕ) (lines : List Line) (fault : ℕ × ℕ) → 20001 < end → IsTooLong lines fault
        → first_of (name_faults end lines) ≡ Some fault }
{}
