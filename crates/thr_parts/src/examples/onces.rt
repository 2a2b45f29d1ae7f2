//! Once blocks and keys.

ghost use Rattle.std.specs.Prelude.{◌≡◌, ◌∷◌, [], Some, None, true, false, pos, negsuc, ◌+◌};
ghost use Rattle.thr_values.specs.declared.reply.Reply.TheVariants as reply;
ghost use Rattle.thr_parts.specs.declared.once.OnceBlock.TheVariants as block;
ghost use Rattle.thr_parts.specs.declared.row.RowId.TheVariants.{Ready, Once};
ghost use Rattle.thr_parts.specs.Tables.{none};
ghost use Rattle.thr_parts.specs.Rows.{thread, no_rows};
ghost use Rattle.thr_parts.specs.Moves.{free_row};
ghost use Rattle.thr_parts.specs.Keys.{no_onces, keycreate, setspecific, getspecific, next_destructor};
ghost use Rattle.thr_parts.specs.OnceBlocks.{enter, done, undone};
ghost use Rattle.thr_parts.specs.Samples.{alone, name, rows, running_at, standing_in, blocks, keys, key};

/// The first that enters runs the routine, and those that enter meanwhile wait.
#[tactic(auto, unfolding(crate::specs::Computing::parts_words))]
pub fn entered_blocks()
    ensures first { enter no_onces alone (name 50) (thread 1) 116
        ≡ record {
          reply = reply.Done;
          onces = blocks ((50, block.Running (thread 1)) ∷ []);
          rows = alone;
          runs = true;
        } }
    ensures done { enter (blocks ((50, block.Done) ∷ [])) alone (name 50) (thread 1) 116
        ≡ record { reply = reply.Done; onces = blocks ((50, block.Done) ∷ []); rows = alone; runs = false } }
    ensures own { enter (blocks ((50, block.Running (thread 1)) ∷ [])) alone (name 50) (thread 1) 116
        ≡ record {
          reply = reply.Edeadlk;
          onces = blocks ((50, block.Running (thread 1)) ∷ []);
          rows = alone;
          runs = false;
        } }
    ensures anothers { enter (blocks ((50, block.Running (thread 2)) ∷ [])) alone (name 50) (thread 1) 116
        ≡ record {
          reply = reply.Blocks;
          onces = blocks ((50, block.Running (thread 2)) ∷ []);
          rows = rows 4 ((1, standing_in (Once (name 50)) 116 3) ∷ []);
          runs = false;
        } }
{}

/// A block is done for all that wait for it, the best first. One that is unwound goes to the best waiter alone.
#[tactic(auto, unfolding(crate::specs::Computing::parts_words))]
pub fn ended_routines()
    ensures done { done (blocks ((50, block.Running (thread 1)) ∷ [])) (name 50) ≡ blocks ((50, block.Done) ∷ []) }
    ensures freed { free_row (λ t. 100 + t.0)
        (rows 5 ((2, standing_in (Once (name 50)) 102 3) ∷ (3, standing_in (Once (name 50)) 103 4) ∷ []))
        (Once (name 50))
        ≡ record {
          rows = rows 7 ((2, standing_in Ready 102 6) ∷ (3, standing_in Ready 103 5) ∷ []);
          woken = thread 3 ∷ thread 2 ∷ [];
        } }
    ensures undone { undone (blocks ((50, block.Running (thread 1)) ∷ []))
        (rows 5 ((2, standing_in (Once (name 50)) 102 3) ∷ (3, standing_in (Once (name 50)) 103 4) ∷ [])) (name 50)
        ≡ record {
          onces = blocks ((50, block.Running (thread 3)) ∷ []);
          rows = rows 5 ((2, standing_in (Once (name 50)) 102 3) ∷ []);
          runner = Some (thread 3);
        } }
    ensures undone_alone { undone (blocks ((50, block.Running (thread 1)) ∷ (51, block.Done) ∷ []))
        (rows 5 ((2, standing_in (Once (name 51)) 102 3) ∷ [])) (name 50)
        ≡ record {
          onces = blocks ((51, block.Done) ∷ []);
          rows = rows 5 ((2, standing_in (Once (name 51)) 102 3) ∷ []);
          runner = None;
        } }
{}

/// Keys are made once. A value is 0 at first, and 0 isn't kept.
#[tactic(auto, unfolding(crate::specs::Computing::parts_words))]
pub fn values_of_keys()
    ensures create { keycreate no_onces (name 60) (Some (name 70))
        ≡ record { reply = reply.Done; onces = keys ((60, key (Some (name 70)) none) ∷ []) } }
    ensures create_made { keycreate (keys ((60, key (Some (name 70)) ((1, pos 4) ∷ [])) ∷ [])) (name 60) None
        ≡ record { reply = reply.Ebusy; onces = keys ((60, key (Some (name 70)) ((1, pos 4) ∷ [])) ∷ []) } }
    ensures set { setspecific (keys ((60, key None ((2, pos 4) ∷ [])) ∷ [])) (name 60) (thread 1) (negsuc 0)
        ≡ record { reply = reply.Done; onces = keys ((60, key None ((1, negsuc 0) ∷ (2, pos 4) ∷ [])) ∷ []) } }
    ensures set_again { (setspecific (keys ((60, key None ((2, pos 4) ∷ [])) ∷ [])) (name 60) (thread 2) (pos 5)).onces
        ≡ keys ((60, key None ((2, pos 5) ∷ [])) ∷ []) }
    ensures set_zero { (setspecific (keys ((60, key None ((2, pos 4) ∷ [])) ∷ [])) (name 60) (thread 2) (pos 0)).onces
        ≡ keys ((60, key None none) ∷ []) }
    ensures set_unmade { setspecific no_onces (name 60) (thread 1) (pos 4)
        ≡ record { reply = reply.Einval; onces = no_onces } }
    ensures read { getspecific (keys ((60, key None ((2, pos 4) ∷ [])) ∷ [])) (name 60) (thread 2)
        ≡ reply.Value (pos 4) }
    ensures read_first { getspecific (keys ((60, key None ((2, pos 4) ∷ [])) ∷ [])) (name 60) (thread 1)
        ≡ reply.Value (pos 0) }
    ensures read_unmade { getspecific (keys ((60, key None ((2, pos 4) ∷ [])) ∷ [])) (name 61) (thread 2)
        ≡ reply.Einval }
{}

/// An ended thread calls the destructor of the least key that has one and whose value isn't 0, which becomes 0.
#[tactic(auto, unfolding(crate::specs::Computing::parts_words))]
pub fn destructors()
    ensures least { next_destructor
        (keys
        ((60, key (Some (name 70)) ((1, pos 4) ∷ (2, pos 6) ∷ [])) ∷ (61, key (Some (name 71)) ((1, pos 5) ∷ []))
        ∷ [])) (thread 1)
        ≡ record {
          onces = keys
              ((60, key (Some (name 70)) ((2, pos 6) ∷ [])) ∷ (61, key (Some (name 71)) ((1, pos 5) ∷ [])) ∷ []);
          call = Some (name 60, name 70, pos 4);
        } }
    ensures passed_over { next_destructor
        (keys
        ((60, key None ((1, pos 4) ∷ [])) ∷ (61, key (Some (name 70)) ((2, pos 6) ∷ []))
        ∷ (62, key (Some (name 71)) ((1, negsuc 2) ∷ [])) ∷ [])) (thread 1)
        ≡ record {
          onces = keys
              ((60, key None ((1, pos 4) ∷ [])) ∷ (61, key (Some (name 70)) ((2, pos 6) ∷ []))
              ∷ (62, key (Some (name 71)) none) ∷ []);
          call = Some (name 62, name 71, negsuc 2);
        } }
    ensures none { next_destructor
        (keys ((60, key None ((1, pos 4) ∷ [])) ∷ (61, key (Some (name 70)) ((2, pos 6) ∷ [])) ∷ [])) (thread 1)
        ≡ record {
          onces = keys ((60, key None ((1, pos 4) ∷ [])) ∷ (61, key (Some (name 70)) ((2, pos 6) ∷ [])) ∷ []);
          call = None;
        } }
    ensures no_keys { next_destructor no_onces (thread 1) ≡ record { onces = no_onces; call = None } }
{}
