//! Which line has the first fault of the second pass.

ghost use Rattle.std.specs.Prelude.{◌≡◌, ◌⊎◌, ℕ, Some, List, [], map};
ghost use Rattle.thr_text.specs.Faults.{first_of};
ghost use Rattle.thr_text.specs.Blocks.{Line, Nest, shape_of_line, block_faults};
ghost use Rattle.thr_blocks.specs.Placement.{IsFirstMisplaced, IsLeftOpen, KeepExceptions};

/// The first fault of the second pass is at a line exactly where all lines above are well placed and it isn't, and is its
/// least; or it is F8 at the line after the last, exactly where all lines are and a block is left open (docs/script.md,
/// "Blocks" and "Faults").
pub fn first_misplaced_lines_are_told()
    ensures says { (end : ℕ) (lines : List Line) (fault : ℕ × ℕ) → first_of (block_faults end [] lines) ≡ Some fault → IsFirstMisplaced [] lines fault ⊎ IsLeftOpen end [] lines fault }
    ensures comes { (end : ℕ) (lines : List Line) (fault : ℕ × ℕ) → IsFirstMisplaced [] lines fault → first_of (block_faults end [] lines) ≡ Some fault }
    ensures comes_at_the_end { (end : ℕ) (lines : List Line) (fault : ℕ × ℕ) → IsLeftOpen end [] lines fault → first_of (block_faults end [] lines) ≡ Some fault }
{}

/// The second pass finds no fault exactly where the lines nest and keep the rules for exceptions: no `return` in a try, and
/// `reraise` and `this` in bodies that catch (docs/script.md, "Blocks").
pub fn lines_without_fault_nest()
    ensures nest { (end : ℕ) (lines : List Line) → block_faults end [] lines ≡ [] → Nest [] (map (λ l. shape_of_line l.1) lines) }
    ensures keep { (end : ℕ) (lines : List Line) → block_faults end [] lines ≡ [] → KeepExceptions [] lines }
    ensures faultless { (end : ℕ) (lines : List Line) → Nest [] (map (λ l. shape_of_line l.1) lines) → KeepExceptions [] lines → block_faults end [] lines ≡ [] }
{}
