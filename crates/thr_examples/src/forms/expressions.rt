//! Expressions in lines.

ghost use Rattle.std.specs.Prelude.{[], ◌∷◌, None, Some};
ghost use Rattle.thr_examples.specs.Lines.{AreJudged};

/// Expressions of one word, and words that are none.
#[tactic(auto, unfolding(thr_text::specs::Computing::text_words))]
pub fn single_words()
    ensures numbers { AreJudged
        (("say 0", None) ∷ ("say -5", None) ∷ ("say 007", None)
        ∷ ("say --5", Some 6) ∷ ("say +5", Some 6) ∷ ("say 1a", Some 6) ∷ ("say 1.5", Some 6)
        ∷ ("say 0 0", Some 7)
        ∷ []) }
    ensures names { AreJudged
        (("say a", None) ∷ ("say _", None) ∷ ("say main", None) ∷ ("say cancel_e", None) ∷ ("say pthread_frob", None)
        ∷ ("say a-b", Some 6) ∷ ("say this", Some 6) ∷ ("say default", Some 6) ∷ ("say none", Some 6) ∷ ("say global", Some 6) ∷ ("say exc", Some 6) ∷ ("say SCHED_RR", Some 6) ∷ ("say read", Some 6)
        ∷ ("say a a", Some 7)
        ∷ []) }
    ensures own_number { AreJudged
        (("say self", None)
        ∷ ("say self 1", Some 7)
        ∷ []) }
    ensures err { AreJudged
        (("say err", None)
        ∷ ("say err err", Some 7)
        ∷ []) }
    ensures spaces { AreJudged
        (("  say   1  ", None) ∷ ("say 1 # and more", None) ∷ ("say -7# 1", None)
        ∷ ("s ay 1", Some 6)
        ∷ ("say # 1", Some 7)
        ∷ []) }
{}

/// Operators of one and two operands.
#[tactic(auto, unfolding(thr_text::specs::Computing::text_words))]
pub fn operators()
    ensures plus { AreJudged
        (("say + 1 x", None)
        ∷ ("say + this x", Some 6) ∷ ("say + 1 this", Some 6)
        ∷ ("say +", Some 7) ∷ ("say + 1", Some 7) ∷ ("say + 1 x 2", Some 7)
        ∷ []) }
    ensures minus { AreJudged
        (("say - 1 x", None)
        ∷ ("say - this x", Some 6) ∷ ("say - 1 this", Some 6)
        ∷ ("say -", Some 7) ∷ ("say - 1", Some 7) ∷ ("say - 1 x 2", Some 7)
        ∷ []) }
    ensures times { AreJudged
        (("say * 1 x", None)
        ∷ ("say * this x", Some 6) ∷ ("say * 1 this", Some 6)
        ∷ ("say *", Some 7) ∷ ("say * 1", Some 7) ∷ ("say * 1 x 2", Some 7)
        ∷ []) }
    ensures over { AreJudged
        (("say / 1 x", None)
        ∷ ("say / this x", Some 6) ∷ ("say / 1 this", Some 6)
        ∷ ("say /", Some 7) ∷ ("say / 1", Some 7) ∷ ("say / 1 x 2", Some 7)
        ∷ []) }
    ensures modulo { AreJudged
        (("say % 1 x", None)
        ∷ ("say % this x", Some 6) ∷ ("say % 1 this", Some 6)
        ∷ ("say %", Some 7) ∷ ("say % 1", Some 7) ∷ ("say % 1 x 2", Some 7)
        ∷ []) }
    ensures equal { AreJudged
        (("say == 1 x", None)
        ∷ ("say == this x", Some 6) ∷ ("say == 1 this", Some 6)
        ∷ ("say ==", Some 7) ∷ ("say == 1", Some 7) ∷ ("say == 1 x 2", Some 7)
        ∷ []) }
    ensures unequal { AreJudged
        (("say != 1 x", None)
        ∷ ("say != this x", Some 6) ∷ ("say != 1 this", Some 6)
        ∷ ("say !=", Some 7) ∷ ("say != 1", Some 7) ∷ ("say != 1 x 2", Some 7)
        ∷ []) }
    ensures less { AreJudged
        (("say < 1 x", None)
        ∷ ("say < this x", Some 6) ∷ ("say < 1 this", Some 6)
        ∷ ("say <", Some 7) ∷ ("say < 1", Some 7) ∷ ("say < 1 x 2", Some 7)
        ∷ []) }
    ensures at_most { AreJudged
        (("say <= 1 x", None)
        ∷ ("say <= this x", Some 6) ∷ ("say <= 1 this", Some 6)
        ∷ ("say <=", Some 7) ∷ ("say <= 1", Some 7) ∷ ("say <= 1 x 2", Some 7)
        ∷ []) }
    ensures greater { AreJudged
        (("say > 1 x", None)
        ∷ ("say > this x", Some 6) ∷ ("say > 1 this", Some 6)
        ∷ ("say >", Some 7) ∷ ("say > 1", Some 7) ∷ ("say > 1 x 2", Some 7)
        ∷ []) }
    ensures at_least { AreJudged
        (("say >= 1 x", None)
        ∷ ("say >= this x", Some 6) ∷ ("say >= 1 this", Some 6)
        ∷ ("say >=", Some 7) ∷ ("say >= 1", Some 7) ∷ ("say >= 1 x 2", Some 7)
        ∷ []) }
    ensures both { AreJudged
        (("say and 1 x", None)
        ∷ ("say and this x", Some 6) ∷ ("say and 1 this", Some 6)
        ∷ ("say and", Some 7) ∷ ("say and 1", Some 7) ∷ ("say and 1 x 2", Some 7)
        ∷ []) }
    ensures either { AreJudged
        (("say or 1 x", None)
        ∷ ("say or this x", Some 6) ∷ ("say or 1 this", Some 6)
        ∷ ("say or", Some 7) ∷ ("say or 1", Some 7) ∷ ("say or 1 x 2", Some 7)
        ∷ []) }
    ensures negation { AreJudged
        (("say not 1", None) ∷ ("say not not x", None)
        ∷ ("say not this", Some 6)
        ∷ ("say not", Some 7) ∷ ("say not not", Some 7) ∷ ("say not 1 2", Some 7)
        ∷ []) }
    ensures nested { AreJudged
        (("say + * 1 2 - 3 4", None) ∷ ("say + + + + + 1 2 3 4 5 6", None) ∷ ("say and not < a 1 == b err", None)
        ∷ ("say + * 1 2 - 3 !", Some 6) ∷ ("say = 1 2", Some 6) ∷ ("say & 1 2", Some 6) ∷ ("say + 1 this 2", Some 6)
        ∷ ("say + * 1 2 - 3", Some 7) ∷ ("say + * 1 2 - 3 4 5", Some 7) ∷ ("say 1 + 2", Some 7)
        ∷ []) }
{}

/// Words of expressions that speak of exceptions.
#[tactic(auto, unfolding(thr_text::specs::Computing::text_words))]
pub fn exceptions_in_expressions()
    ensures exc_get_status { AreJudged
        (("say exc_get_status e", None) ∷ ("say exc_get_status this", None)
        ∷ ("say exc_get_status 5", Some 6) ∷ ("say exc_get_status self", Some 6) ∷ ("say exc_get_status none", Some 6) ∷ ("say exc_get_status + 1 2", Some 6)
        ∷ ("say exc_get_status", Some 7) ∷ ("say exc_get_status e e", Some 7)
        ∷ []) }
    ensures exc_matches { AreJudged
        (("say exc_matches e f", None) ∷ ("say exc_matches this e", None) ∷ ("say exc_matches e this", None) ∷ ("say exc_matches this this", None)
        ∷ ("say exc_matches 5 e", Some 6) ∷ ("say exc_matches err e", Some 6) ∷ ("say exc_matches e 5", Some 6) ∷ ("say exc_matches e none", Some 6)
        ∷ ("say exc_matches", Some 7) ∷ ("say exc_matches e", Some 7) ∷ ("say exc_matches e f f", Some 7)
        ∷ []) }
    ensures among_others { AreJudged
        (("say + exc_get_status this exc_matches this e", None)
        ∷ ("say + this exc_matches this e", Some 6)
        ∷ ("say + exc_get_status this exc_matches this", Some 7)
        ∷ []) }
{}
