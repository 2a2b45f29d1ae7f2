//! Laws of the trees of scripts that keep the rules.

ghost use Rattle.std.specs.Prelude.{◌≡◌, ◌≤◌, ◌<◌, ◌+◌, ◌-◌, ◌∷◌, List, ℕ, true, false, codes, length, slice_get, Option, Some};
ghost use Rattle.std.specs.List.{list_any};
ghost use Rattle.thr_values.specs.declared.number.NameId.{NameId};
ghost use Rattle.thr_syntax.specs.declared.dce.DceCall.TheVariants as dce;
ghost use Rattle.thr_syntax.specs.declared.expr.Expr.{Expr};
ghost use Rattle.thr_syntax.specs.declared.expr.Var.{Var};
ghost use Rattle.thr_syntax.specs.declared.form.Form.{Form};
ghost use Rattle.thr_syntax.specs.declared.form.Form.TheVariants as form;
ghost use Rattle.thr_syntax.specs.declared.tree.Item.{Item};
ghost use Rattle.thr_syntax.specs.declared.tree.Item.TheVariants as item;
ghost use Rattle.thr_syntax.specs.declared.tree.Routine.{Routine};
ghost use Rattle.thr_syntax.specs.declared.tree.Script.{Script};
ghost use Rattle.thr_syntax.specs.Canon.{locals_in};
ghost use Rattle.thr_syntax.specs.Lines.{item_lines, lines_of};
ghost use Rattle.thr_syntax.specs.Spelling.{name_at};
ghost use Rattle.thr_text.specs.declared.object.Object.{Object};
ghost use Rattle.thr_text.specs.declared.object.Object.TheVariants as object;
ghost use Rattle.thr_text.specs.Blocks.{is_catch};
ghost use Rattle.thr_text.specs.Reading.{Formed, own_lines};
ghost use Rattle.thr_text.specs.Tables.{entries_of, kind_in};
ghost use Rattle.thr_blocks.specs.Trees.{item_nests};
ghost use Rattle.thr_limits.specs.Limits.{routine_depth};
ghost use Rattle.thr_trees.specs.Kinds.{is_name_of};
ghost use Rattle.thr_trees.specs.Names.{Asked, declared_among, IsNamed, AreNamed, IsShared, locals_at};
ghost use Rattle.thr_remainder.specs.Standing.{StandAt};
ghost use Rattle.thr_trees.specs.Caught.{body_caught, open_above, uses_caught};
ghost use Rattle.thr_trees.specs.Distinct.{AllDistinct, AreOwnNames};
ghost use Rattle.thr_trees.specs.Routines.{IsRoutine, name_with};

/// A script that keeps the rules has a routine `main`, and the first name with that text is its name (docs/script.md,
/// "Lines").
pub fn scripts_have_a_main()
    ensures routine { (s : Script) → Formed s → IsRoutine s (name_with s (codes "main")) }
    ensures text { (s : Script) → Formed s → name_at s.names (name_with s (codes "main")).0 ≡ codes "main" }
{}

/// Each routine that a line names, as the one to call, to create a thread with, to run once or to run as a destructor, is a
/// routine of the script (docs/script.md, "Lines" and "Calls").
pub fn named_routines_are_there()
    ensures called { (s : Script) → Formed s → (k : ℕ) (name : NameId) (e : Expr) (place : Option ℕ)
        → slice_get (lines_of s) k ≡ Some (form.Call name e place) → IsRoutine s name }
    ensures created { (s : Script) → Formed s → (k : ℕ) (v : Var) (attr : Option NameId) (name : NameId) (e : Expr)
        → slice_get (lines_of s) k ≡ Some (form.Dce (dce.Create v attr name e)) → IsRoutine s name }
    ensures once { (s : Script) → Formed s → (k : ℕ) (block name : NameId)
        → slice_get (lines_of s) k ≡ Some (form.Dce (dce.Once block name)) → IsRoutine s name }
    ensures destructor { (s : Script) → Formed s → (k : ℕ) (key name : NameId)
        → slice_get (lines_of s) k ≡ Some (form.Dce (dce.Keycreate key (Some name))) → IsRoutine s name }
    ensures named { (s : Script) → Formed s → (name : NameId) → is_name_of s object.Routine name ≡ true → IsRoutine s name }
{}

/// Each name in a line is a declared or built-in one of the kind that its place asks, and each local is one of the routine in
/// which the line stands (docs/script.md, "Faults", F16 and F17).
pub fn names_are_of_their_kinds()
    ensures line { (s : Script) → Formed s → (k : ℕ) (f : Form) → slice_get (lines_of s) k ≡ Some f → IsNamed s (locals_at s k) f }
    ensures standing { (s : Script) → Formed s → (line : ℕ) (f : Form) (more : List Form) → StandAt (lines_of s) line (f ∷ more)
        → IsNamed s (locals_at s (line - 1)) f }
    ensures item { (s : Script) → Formed s → (place : ℕ) (i : Item) → slice_get s.items place ≡ Some i
        → AreNamed s (length (locals_in i)) (item_lines i) }
    ensures shared { (s : Script) → Formed s → (name : NameId) → is_name_of s object.Shared name ≡ true → IsShared s name }
{}

/// A script that keeps the rules has few lines and few names, and each name that stands for something is one of them
/// (docs/script.md, "Faults", F18).
pub fn lines_and_names_are_few()
    ensures lines { (s : Script) → Formed s → length (lines_of s) ≤ 20000 }
    ensures names { (s : Script) → Formed s → length s.names ≤ 1010 }
    ensures below { (s : Script) → Formed s → (kind : Object) (name : NameId) → is_name_of s kind name ≡ true → name.0 < length s.names }
{}

/// The names of a script are distinct: the built-in ones and then those that its declarations declare, in their order. So are
/// the parameter and the locals of each routine, none of which has a name of the script (docs/script.md, "Names" and
/// "Faults", F15).
pub fn names_are_distinct()
    ensures names { (s : Script) → Formed s → AllDistinct s.names }
    ensures order { (s : Script) → Formed s → (place : ℕ) (a : Asked) → slice_get (declared_among s.items) place ≡ Some a → a.0.0 ≡ 10 + place }
    ensures count { (s : Script) → Formed s → length s.names ≡ 10 + length (declared_among s.items) }
    ensures locals { (s : Script) → Formed s → (place : ℕ) (r : Routine) → slice_get s.items place ≡ Some (item.Routine r) → AreOwnNames s.names r.locals }
{}

/// The kind that the lines of a script give a name is the one that its declarations give it, and a name is of one kind
/// (docs/script.md, "Names").
pub fn kinds_of_lines_are_those_of_declarations()
    ensures declared { (s : Script) → Formed s → (kind : Object) (name : NameId) → name.0 < length s.names
        → kind_in (entries_of (own_lines s)) (name_at s.names name.0) ≡ Some kind → is_name_of s kind name ≡ true }
    ensures told { (s : Script) → Formed s → (kind : Object) (name : NameId) → is_name_of s kind name ≡ true
        → kind_in (entries_of (own_lines s)) (name_at s.names name.0) ≡ Some kind }
    ensures one { (s : Script) → Formed s → (kind other : Object) (name : NameId) → is_name_of s kind name ≡ true
        → is_name_of s other name ≡ true → kind ≡ other }
{}

/// In the body of each routine `reraise` and `this` stand in catch bodies alone, and where a line uses what is caught, a catch
/// body is open above it (docs/script.md, "Blocks").
pub fn catch_bodies_alone_use_what_is_caught()
    ensures lines { (s : Script) → Formed s → (k : ℕ) (f : Form) → slice_get (lines_of s) k ≡ Some f → uses_caught f ≡ true
        → list_any is_catch (open_above s k) ≡ true }
    ensures bodies { (s : Script) → Formed s → (place : ℕ) (r : Routine) → slice_get s.items place ≡ Some (item.Routine r) → body_caught r.body false ≡ true }
{}

/// Each routine has a parameter, each try has a clause, and none follows one that catches all. Blocks are at most 32 deep, the
/// routine at depth 1 (docs/script.md, "Blocks" and "Faults", F18).
pub fn blocks_nest_and_are_shallow()
    ensures nests { (s : Script) → Formed s → (place : ℕ) (i : Item) → slice_get s.items place ≡ Some i → item_nests i ≡ true }
    ensures shallow { (s : Script) → Formed s → (place : ℕ) (r : Routine) → slice_get s.items place ≡ Some (item.Routine r) → routine_depth r ≤ 32 }
{}
