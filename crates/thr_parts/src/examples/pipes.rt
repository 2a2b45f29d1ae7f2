//! Pipes.

ghost use Rattle.std.specs.Prelude.{◌≡◌, ◌∷◌, [], Some, None, true, false, pos, ◌+◌};
ghost use Rattle.thr_values.specs.declared.reply.Reply.TheVariants as reply;
ghost use Rattle.thr_syntax.specs.declared.tree.Item.TheVariants as item;
ghost use Rattle.thr_parts.specs.declared.row.RowId.TheVariants.{Ready, Reader, Writer, Time};
ghost use Rattle.thr_parts.specs.Tables.{none};
ghost use Rattle.thr_parts.specs.Rows.{thread, no_rows};
ghost use Rattle.thr_parts.specs.Pipes.{first_pipes, read, write};
ghost use Rattle.thr_parts.specs.Closing.{close, close_out, pull_out};
ghost use Rattle.thr_parts.specs.Samples.{alone, name, rows, running_at, standing_in, pipes, writer};

/// Every declared pipe is open and empty at the opening.
#[tactic(auto, unfolding(crate::specs::Computing::parts_words))]
pub fn declared_pipes()
    ensures { first_pipes (item.Mutex (name 10) ∷ item.Pipe (name 40) 4 ∷ item.Shared (name 11) (pos 3) ∷ [])
        ≡ pipes 4 true [] none }
{}

/// A reader takes the front item; then that of the best waiting writer enters.
#[tactic(auto, unfolding(crate::specs::Computing::parts_words))]
pub fn reads()
    ensures front { read (pipes 4 true (pos 7 ∷ pos 8 ∷ []) none) alone (name 40) (thread 1) 116
        ≡ record {
          reply = reply.Value (pos 7);
          pipes = pipes 4 true (pos 8 ∷ []) none;
          rows = alone;
          relieved = None;
        } }
    ensures relieves { read (pipes 2 true (pos 7 ∷ pos 8 ∷ []) ((2, writer 5) ∷ (3, writer 6) ∷ []))
        (rows 3
        ((1, running_at 0 116 8) ∷ (2, standing_in (Writer (name 40)) 116 2)
        ∷ (3, standing_in (Writer (name 40)) 116 1) ∷ [])) (name 40) (thread 1) 116
        ≡ record {
          reply = reply.Value (pos 7);
          pipes = pipes 2 true (pos 8 ∷ pos 6 ∷ []) ((2, writer 5) ∷ []);
          rows = rows 3 ((1, running_at 0 116 8) ∷ (2, standing_in (Writer (name 40)) 116 2) ∷ []);
          relieved = Some (thread 3);
        } }
    ensures closed_full { (read (pipes 2 false (pos 7 ∷ []) none) no_rows (name 40) (thread 1) 116).reply
        ≡ reply.Value (pos 7) }
    ensures closed_empty { read (pipes 2 false [] none) alone (name 40) (thread 1) 116
        ≡ record { reply = reply.Eof; pipes = pipes 2 false [] none; rows = alone; relieved = None } }
    ensures waits { read (pipes 2 true [] none) alone (name 40) (thread 1) 116
        ≡ record {
          reply = reply.Blocks;
          pipes = pipes 2 true [] none;
          rows = rows 4 ((1, standing_in (Reader (name 40)) 116 3) ∷ []);
          relieved = None;
        } }
{}

/// A written item goes to the best waiting reader, or into the pipe where it isn't full.
#[tactic(auto, unfolding(crate::specs::Computing::parts_words))]
pub fn writes()
    ensures closed { write (pipes 2 false [] none) alone (name 40) (pos 9) (thread 1) 116
        ≡ record { reply = reply.Epipe; pipes = pipes 2 false [] none; rows = alone; reader = None } }
    ensures to_reader { write (pipes 2 true [] none)
        (rows 3
        ((1, running_at 0 116 8) ∷ (2, standing_in (Reader (name 40)) 116 2)
        ∷ (3, standing_in (Reader (name 40)) 120 2) ∷ [])) (name 40) (pos 9) (thread 1) 116
        ≡ record {
          reply = reply.Done;
          pipes = pipes 2 true [] none;
          rows = rows 3 ((1, running_at 0 116 8) ∷ (2, standing_in (Reader (name 40)) 116 2) ∷ []);
          reader = Some (thread 3);
        } }
    ensures enters { write (pipes 2 true (pos 7 ∷ []) none) alone (name 40) (pos 9) (thread 1) 116
        ≡ record { reply = reply.Done; pipes = pipes 2 true (pos 7 ∷ pos 9 ∷ []) none; rows = alone; reader = None } }
    ensures waits { write (pipes 2 true (pos 7 ∷ pos 8 ∷ []) none) alone (name 40) (pos 9) (thread 1) 116
        ≡ record {
          reply = reply.Blocks;
          pipes = pipes 2 true (pos 7 ∷ pos 8 ∷ []) ((1, writer 9) ∷ []);
          rows = rows 4 ((1, standing_in (Writer (name 40)) 116 3) ∷ []);
          reader = None;
        } }
{}

/// A pipe that is closed with two readers and two writers: readers become ready first, and of both the best first. The items
/// of the writers are dropped, and those in the pipe stay.
#[tactic(auto, unfolding(crate::specs::Computing::parts_words))]
pub fn closings()
    ensures closed { close (pipes 2 false (pos 7 ∷ []) none) (name 40)
        ≡ record { reply = reply.Einval; pipes = pipes 2 false (pos 7 ∷ []) none } }
    ensures closes { close
        (pipes 2 true (pos 7 ∷ pos 8 ∷ []) ((2, writer 5) ∷ (3, record { pipe = name 41; item = pos 6 }) ∷ []))
        (name 40)
        ≡ record {
          reply = reply.Done;
          pipes = pipes 2 false (pos 7 ∷ pos 8 ∷ []) ((3, record { pipe = name 41; item = pos 6 }) ∷ []);
        } }
    ensures waiters { close_out (λ t. 100 + t.0)
        (pipes 2 true (pos 7 ∷ pos 8 ∷ []) ((4, writer 5) ∷ (5, writer 6) ∷ []))
        (rows 4
        ((1, running_at 0 101 8) ∷ (2, standing_in (Reader (name 40)) 102 0)
        ∷ (3, standing_in (Reader (name 40)) 103 1) ∷ (4, standing_in (Writer (name 40)) 104 2)
        ∷ (5, standing_in (Writer (name 40)) 104 3) ∷ [])) (name 40)
        ≡ record {
          reply = reply.Done;
          pipes = pipes 2 false (pos 7 ∷ pos 8 ∷ []) none;
          rows = rows 8
              ((1, running_at 0 101 8) ∷ (2, standing_in Ready 102 5) ∷ (3, standing_in Ready 103 4)
              ∷ (4, standing_in Ready 104 6) ∷ (5, standing_in Ready 105 7) ∷ []);
          readers = thread 3 ∷ thread 2 ∷ [];
          writers = thread 4 ∷ thread 5 ∷ [];
        } }
    ensures closed_waiters { close_out (λ _. 116) (pipes 2 false [] none)
        (rows 4 ((2, standing_in (Reader (name 41)) 102 0) ∷ [])) (name 40)
        ≡ record {
          reply = reply.Einval;
          pipes = pipes 2 false [] none;
          rows = rows 4 ((2, standing_in (Reader (name 41)) 102 0) ∷ []);
          readers = [];
          writers = [];
        } }
{}

/// A cancelled reader or writer leaves its row, and the writer's item is dropped.
#[tactic(auto, unfolding(crate::specs::Computing::parts_words))]
pub fn waiters_taken_out()
    ensures reader { pull_out (pipes 2 true [] none) (rows 4 ((2, standing_in (Reader (name 40)) 102 0) ∷ []))
        (thread 2)
        ≡ record { pipes = pipes 2 true [] none; rows = rows 4 []; stood = true } }
    ensures writer { pull_out (pipes 1 true (pos 7 ∷ []) ((2, writer 5) ∷ (3, writer 6) ∷ []))
        (rows 4 ((2, standing_in (Writer (name 40)) 102 0) ∷ (3, standing_in (Writer (name 40)) 103 1) ∷ [])) (thread 2)
        ≡ record {
          pipes = pipes 1 true (pos 7 ∷ []) ((3, writer 6) ∷ []);
          rows = rows 4 ((3, standing_in (Writer (name 40)) 103 1) ∷ []);
          stood = true;
        } }
    ensures none { pull_out (pipes 2 true [] none) (rows 4 ((2, standing_in Time 102 0) ∷ [])) (thread 2)
        ≡ record { pipes = pipes 2 true [] none; rows = rows 4 ((2, standing_in Time 102 0) ∷ []); stood = false } }
{}
