//! A writer that waits at a full pipe, and that memory is found for the pipes, which no clause says.

use std::test::Fail;
use thr_pipes::Pipes;
use thr_pipes::laws::rows_go_on_to_agree_on_writers;
use thr_rows::Rows;
use thr_syntax::tree::Item;
use thr_values::number::{NameId, Tid};
use thr_values::reply::Reply;

const PIPE: NameId = NameId(11);

/// The number of the thread, 0 for none.
fn number(t: Option<Tid>) -> u32 {
    match t {
        None => 0,
        Some(t) => t.0,
    }
}

#[test]
#[tactic(auto, unfolding(thr_parts::specs::Computing::parts_words))]
fn a_writer_waits_for_room(rt: HostRuntime) -> Result<(), Fail> {
    let declared = [Item::Pipe(PIPE, 1)];
    let mut pipes = Pipes::new(rt.alloc(), declared.as_slice())?;
    let mut rows = Rows::new(rt.alloc())?;
    rows_go_on_to_agree_on_writers();
    let (first, _) = pipes.write(PIPE, 7, Tid(1), 116, &mut rows);
    assert_eq!(rt; first, Reply::Done);
    let (second, _) = pipes.write(PIPE, 8, Tid(2), 116, &mut rows);
    assert_eq!(rt; second, Reply::Blocks);
    let (read, relieved) = pipes.read(PIPE, Tid(3), 116, &mut rows);
    assert_eq!(rt; read, Reply::Value(7));
    assert_eq!(rt; number(relieved), 2);
    assert_eq!(rt; pipes.close(PIPE), Reply::Done);
    let (left, _) = pipes.read(PIPE, Tid(3), 116, &mut rows);
    assert_eq!(rt; left, Reply::Value(8));
    let (end, _) = pipes.read(PIPE, Tid(3), 116, &mut rows);
    assert_eq!(rt; end, Reply::Eof);
    Ok(())
}
