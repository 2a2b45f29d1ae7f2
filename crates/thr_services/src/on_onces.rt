//! The calls on once blocks and keys.
ghost use Rattle.std.specs.Prelude.{◌≡◌, ◌+◌, ◌<◌, ◌≤◌, ◌^◌, true, []};
ghost use Rattle.thr_parts.specs.Tables.{names};
ghost use Rattle.thr_parts.specs.Rows.{has_room};
ghost use Rattle.thr_parts.specs.Keys.{keycreate, setspecific, getspecific};
ghost use Rattle.thr_parts.specs.OnceBlocks.{enter};
ghost use Rattle.thr_model.specs.States.{rank_of};
ghost use Rattle.thr_model.specs.Calls.{answers, on_onces, enters};
ghost use Rattle.thr_services.specs.Answers.{Answers};

use crate::answer::{Answer, plain};
use crate::services::Services;
use thr_values::number::{NameId, Tid};

impl Services {
    /// A thread enters a once block.
    pub(crate) fn once(&mut self, t: Tid, o: NameId) -> Answer
        requires known { o.0 < names }
        requires room { has_room self.old.rows t ≡ true }
        requires arrival { self.old.rows.next_arrival + 1 < 2 ^ 64 }
        ensures { Answers self.old self.new result [] (λ s st. enters st (enter st.onces st.rows o t (rank_of st t))) }
    {
        let rank = self.threads.rank(t);
        let (reply, runs) = self.onces.enter(o, t, rank, &mut self.rows);
        Answer {
            reply,
            runs,
            begins: None,
        }
    }

    /// A key is made.
    pub(crate) fn keycreate(&mut self, k: NameId, destructor: Option<NameId>) -> Answer
        requires known { k.0 < names }
        ensures { Answers self.old self.new result [] (λ s st. on_onces st (keycreate st.onces k destructor)) }
    {
        plain(self.onces.keycreate(k, destructor))
    }

    /// A thread gives a key its value.
    pub(crate) fn setspecific(&mut self, t: Tid, k: NameId, value: i64) -> Answer
        requires known { k.0 < names }
        requires place { 1 ≤ self.old.onces.room }
        ensures { Answers self.old self.new result [] (λ s st. on_onces st (setspecific st.onces k t value)) }
    {
        plain(self.onces.setspecific(k, t, value))
    }

    /// A thread asks for its value of a key.
    pub(crate) fn getspecific(&self, t: Tid, k: NameId) -> Answer
        requires known { k.0 < names }
        ensures { Answers self.now self.now result [] (λ s st. answers (getspecific st.onces k t) st) }
    {
        plain(self.onces.getspecific(k, t))
    }
}
