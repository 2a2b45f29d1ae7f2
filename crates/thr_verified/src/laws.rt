//! The law on `run` and `verify`.

ghost use Rattle.std.specs.Prelude.{◌≡◌, ◌≤◌, ◌⊎◌, ℕ, List, [], ◌∷◌, codes};
ghost use Rattle.thr_syntax.specs.Canon.{line};
ghost use Rattle.thr_journal_commands.specs.Answers.{VerifyAnswers};
ghost use Rattle.thr_top.specs.Answers.{RunAnswers};

/// Where `run` ended with a journal, which is with 0, 6 or 7, `verify` of the bytes that it wrote ends with 0 and the line `legal`, or with
/// 5 for want of memory, and then it writes nothing. A status 5 of `run` comes with no journal.
pub fn verify_calls_legal_what_run_writes()
    ensures { (input written verdict : List ℕ) (workers status judged : ℕ) → 1 ≤ workers → workers ≤ 16
        → RunAnswers workers input status written → (status ≡ 0) ⊎ ((status ≡ 6) ⊎ (status ≡ 7)) → VerifyAnswers written judged verdict
        → ((judged ≡ 0) × (verdict ≡ line (codes "legal" ∷ []))) ⊎ ((judged ≡ 5) × (verdict ≡ [])) }
{}
