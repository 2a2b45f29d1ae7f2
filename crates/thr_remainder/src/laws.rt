//! Laws on the definitions.

ghost use Rattle.std.specs.Prelude.{◌≡◌, ◌↔◌, FitsSigned, IsTrue, List, Some, ℕ, ℤ};
ghost use Rattle.std.specs.Int.{w64};
ghost use Rattle.thr_values.specs.Exceptions.{IsSame};
ghost use Rattle.thr_values.specs.declared.exception.Exc.{Exc};
ghost use Rattle.thr_values.specs.declared.number.NameId.{NameId};
ghost use Rattle.thr_values.specs.declared.reply.Reply.{Reply};
ghost use Rattle.thr_syntax.specs.declared.form.Form.{Form};
ghost use Rattle.thr_syntax.specs.declared.tree.Script.{Script};
ghost use Rattle.thr_syntax.specs.declared.tree.Stmt.{Stmt};
ghost use Rattle.thr_syntax.specs.Lines.{lines_of, stmt_lines};
ghost use Rattle.thr_remainder.specs.Acts.{act_of};
ghost use Rattle.thr_remainder.specs.Declarations.{Entry, routine_of};
ghost use Rattle.thr_remainder.specs.Expressions.{SharedValues, fits, is_same};
ghost use Rattle.thr_remainder.specs.Outward.{outward};
ghost use Rattle.thr_remainder.specs.Places.{Left};
ghost use Rattle.thr_remainder.specs.Remainders.{Remainder, Setting};
ghost use Rattle.thr_remainder.specs.Replies.{replied};
ghost use Rattle.thr_remainder.specs.Scopes.{HasScopes};
ghost use Rattle.thr_remainder.specs.Standing.{IsAct, IsLeft, StandAt};
ghost use Rattle.thr_remainder.specs.Starts.{begins_destructor, begins_once, fresh};
ghost use Rattle.thr_remainder.specs.Steps.{quiet, shared_step};
ghost use Rattle.thr_remainder.specs.declared.unwinding.Unwinding.{Unwinding};

/// The test by which clauses catch says which exceptions match.
pub fn tests_of_exceptions_are_right()
    ensures { (x : Exc) → (y : Exc) → IsTrue (is_same x y) ↔ IsSame x y }
{}

/// A result overflows where it doesn't fit 64 bits with a sign.
pub fn tests_of_numbers_are_right()
    ensures { (z : ℤ) → IsTrue (fits z) ↔ FitsSigned w64 z }
{}

/// The body of a routine stands at its lines of the canonical text, and a line that ends a body closes it.
pub fn routines_stand_at_their_lines()
    ensures { (s : Script) → (name : NameId) → (entry : Entry) → routine_of s name
        ≡ Some entry → IsLeft (lines_of s) entry.body }
{}

/// What a statement does first leaves statements that stand at their lines of the canonical text.
pub fn statements_stand_at_their_lines()
    ensures { (text : List Form) → (stmt : Stmt) → (line : ℕ) → (rest : Left) → StandAt text line (stmt_lines stmt)
        → IsLeft text rest → IsAct text (act_of line stmt rest) }
{}

/// Open scopes have numbers that were given, and the numbers rise inward: each step keeps that.
pub fn scopes_rise_inward()
    ensures fresh { (s : Script) → (routine : NameId) → (n : ℤ) → HasScopes (fresh s routine n) }
    ensures quiet { (g : Setting) → (r : Remainder) → HasScopes r → HasScopes (quiet g r).to }
    ensures shared { (g : Setting) → (shared : SharedValues) → (r : Remainder) → HasScopes r → HasScopes
        (shared_step g shared r).to }
    ensures outward { (g : Setting) → (u : Unwinding) → (r : Remainder) → HasScopes r → HasScopes (outward g u r).to }
    ensures replied { (g : Setting) → (reply : Reply) → (r : Remainder) → HasScopes r → HasScopes (replied g reply r).to }
    ensures once { (g : Setting) → (block : NameId) → (routine : NameId) → (r : Remainder) → HasScopes r
        → HasScopes (begins_once g block routine r).to }
    ensures destructor { (g : Setting) → (key : NameId) → (routine : NameId) → (n : ℤ) → (r : Remainder) → HasScopes r
        → HasScopes (begins_destructor g key routine n r).to }
{}
