//! What declarations say: the interface, exceptions, and where routines stand.

ghost use Rattle.std.specs.Prelude.{◌≡◌, pos, negsuc, ◌∷◌, [], None, Some};
ghost use Rattle.thr_values.specs.Exceptions.{cancel_e, stackovf_e};
ghost use Rattle.thr_values.specs.declared.exception.Exc.TheVariants.{Address, Status};
ghost use Rattle.thr_syntax.specs.declared.tree.Interface.TheVariants as interface;
ghost use Rattle.thr_syntax.specs.declared.tree.Item.TheVariants as item;
ghost use Rattle.thr_syntax.specs.declared.tree.Stmt.TheVariants as stmt;
ghost use Rattle.thr_remainder.specs.Declarations.{exception_of, interface_of, routine_of};
ghost use Rattle.thr_remainder.specs.Samples.{a, b, c, m, main, named, num, r, routine, s, say, script, x};

/// The interface, `exc` where none is declared.
#[tactic(auto, unfolding(crate::specs::Computing::remainder_words))]
pub fn interfaces()
    ensures undeclared { interface_of (script (item.Mutex m ∷ []) 0 []) ≡ interface.Exc }
    ensures exc { interface_of (script (item.Mutex m ∷ item.Interface interface.Exc ∷ []) 0 []) ≡ interface.Exc }
    ensures status { interface_of (script (item.Mutex m ∷ item.Interface interface.Status ∷ item.Mutex c ∷ []) 0 [])
        ≡ interface.Status }
{}

/// Exceptions: the ten that are built in, and those that are declared.
#[tactic(auto, unfolding(crate::specs::Computing::remainder_words))]
pub fn exceptions()
    ensures first { exception_of (script [] 0 []) (named 0) ≡ Some cancel_e }
    ensures last { exception_of (script [] 0 []) (named 9) ≡ Some stackovf_e }
    ensures address { exception_of (script (item.Status a (pos 1) ∷ item.Mutex m ∷ item.Exception b ∷ []) 0 []) b
        ≡ Some (Address b) }
    ensures status { exception_of (script (item.Exception a ∷ item.Status b (negsuc 4) ∷ []) 0 []) b
        ≡ Some (Status (negsuc 4)) }
    ensures mutex { exception_of (script (item.Exception a ∷ item.Mutex m ∷ []) 0 []) m ≡ None }
    ensures routine_name { exception_of (script (item.Exception a ∷ []) 0 []) main ≡ None }
{}

/// Routines: their lines and where their bodies begin and end.
#[tactic(auto, unfolding(crate::specs::Computing::remainder_words))]
pub fn routines()
    ensures alone { routine_of (script [] 0 []) main
        ≡ Some (record { line = 2; locals = 1; body = record { todo = []; close = 3 } }) }
    ensures below_others { routine_of
        (script
        (item.Exception a ∷ routine r 2 (say 1 ∷ stmt.While (num 1) (say 2 ∷ []) ∷ [])
        ∷ item.Mutex m
        ∷ routine s 1 (stmt.TryFinally (say 3 ∷ []) [] ∷ say 4 ∷ [])
        ∷ [])
        0 [])
        s
        ≡ Some (record {
          line = 12;
          locals = 2;
          body = record {
            todo = record { line = 14; stmt = stmt.TryFinally (say 3 ∷ []) [] } ∷ record { line = 18; stmt = say 4 } ∷ [];
            close = 19;
          };
        }) }
    ensures unknown { routine_of (script (item.Mutex m ∷ []) 0 []) m ≡ None }
{}
