//! Laws on the lines of scripts.

ghost use Rattle.std.specs.Prelude.{◌≡◌, length};
ghost use Rattle.thr_syntax.specs.declared.tree.Script.{Script};
ghost use Rattle.thr_syntax.specs.Lines.{lines_of};
ghost use Rattle.thr_syntax.specs.Canon.{script_words};

/// The canonical text of a script has one line for each line of the script.
pub fn each_line_has_its_words()
    ensures { (s : Script) → length (script_words s) ≡ length (lines_of s) }
{}
