//! Waiting writers, and rows of pipes.
ghost use Rattle.std.specs.Prelude.{◌≡◌};
ghost use Rattle.thr_parts.specs.Closing.{is_pipe_row, writing_elsewhere};

use thr_parts::pipe::Writing;
use thr_parts::row::RowId;
use thr_tables::Numbered;
use thr_values::number::NameId;

/// How many threads can wait as writers.
pub const MOST_WRITERS: usize = 4096;

/// The row that is there is one of a pipe.
pub fn is_pipe_row(row: Option<RowId>) -> bool
    ensures { result ≡ is_pipe_row row }
{
    match row {
        None => false,
        Some(row) => match row {
            RowId::Reader(_) => true,
            RowId::Writer(_) => true,
            _ => false,
        },
    }
}

/// Nobody waits as a writer at the pipe from now on.
pub fn drop_writers(writing: &mut Numbered<Writing, MOST_WRITERS>, p: NameId)
    ensures { writing.new ≡ writing_elsewhere writing.old p }
{
    writing.retain(|e| e.1.pipe.0 != p.0);
}
