//! Laws of texts of scripts.

ghost use Rattle.std.specs.Prelude.{◌≡◌, ◌≤◌, ℕ, List, [], length};
ghost use Rattle.thr_syntax.specs.declared.tree.Script.{Script};
ghost use Rattle.thr_syntax.specs.Canon.{canon};
ghost use Rattle.thr_text.specs.Reading.{Formed, Reads, faults};

/// Bytes are read as one script at most, and as one exactly where they have no fault (docs/script.md, "Reading").
pub fn texts_are_read_or_refused()
    ensures one { (bytes : List ℕ) (s t : Script) → Reads bytes s → Reads bytes t → s ≡ t }
    ensures read { (bytes : List ℕ) → faults bytes ≡ [] → (s : Script) × Reads bytes s }
    ensures faultless { (bytes : List ℕ) (s : Script) → Reads bytes s → faults bytes ≡ [] }
{}

/// The canonical text of a script that keeps the rules is read as that script; a script that was read keeps them
/// (docs/script.md, "The canonical text").
pub fn canonical_texts_are_read_again()
    ensures again { (s : Script) → Formed s → Reads (canon s) s }
    ensures short { (s : Script) → Formed s → length (canon s) ≤ 4820000 }
    ensures formed { (bytes : List ℕ) (s : Script) → Reads bytes s → Formed s }
    ensures same { (bytes others : List ℕ) (s t : Script) → Reads bytes s → Reads others t → canon s ≡ canon t → s ≡ t }
{}
