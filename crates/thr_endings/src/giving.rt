//! Writes what a command answers.

ghost use Rattle.std.specs.Prelude.{◌≡◌, ◌≢◌};
ghost use Rattle.thr_wire.specs.Causes.{Rose};
ghost use Rattle.thr_endings.specs.Endings.{Writes};

use crate::status::Status;
use thr_wire::whole::write_all;
use thr_wire::wire::Sink;

/// Writes a text. The answer is the status that goes with it, or 4 where the sink failed.
pub fn give<K: Sink>(sink: &mut K, status: u8, text: &[u8]) -> Status
    ensures written { Writes (K.held sink.old) (K.held sink.new) result.0 status text.now }
    ensures cause { result.0 ≢ status → (result.0 ≡ 4) × Rose (K.faults sink.old) (K.faults sink.new) }
    ensures quiet { result.0 ≢ 4 → K.faults sink.new ≡ K.faults sink.old }
{
    match write_all(sink, text) {
        Ok(()) => Status(status),
        Err(_) => Status(4),
    }
}
