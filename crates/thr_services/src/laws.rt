//! The laws of what threads owe, as the state and as the service have it: a function that does nothing and whose contract is the
//! laws.

ghost use Rattle.std.specs.Prelude.{◌≡◌, ℕ};
ghost use Rattle.std.specs.Option.{option_map};
ghost use Rattle.thr_parts.specs.Tables.{Table, get, has, cut};
ghost use Rattle.thr_services.specs.declared.debt.Debt.{Debt};
ghost use Rattle.thr_services.specs.Views.{as_owed, all_owed};

/// In the state a thread owes something exactly where it does in the service, and it owes the same; and what is taken from the
/// one is taken from the other.
#[tactic(auto, using(crate::proofs::OwedLaws::owed_laws))]
pub fn threads_owe_the_same_in_the_state()
    ensures has { (debts : Table Debt) (t : ℕ) → has (all_owed debts) t ≡ has debts t }
    ensures get { (debts : Table Debt) (t : ℕ) → get (all_owed debts) t ≡ option_map as_owed (get debts t) }
    ensures cut { (debts : Table Debt) (t : ℕ) → cut (all_owed debts) t ≡ all_owed (cut debts t) }
{}
