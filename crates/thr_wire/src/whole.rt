//! Whole reads and writes.

ghost use Rattle.std.specs.Prelude.{◌≡◌, ◌≤◌, ◌+◌, ◌^◌, ◌↔◌, ℕ, length, take, vec_len, IfOk, IfErr, IfSome, OnOk, OnErr, IsErrOf};
ghost use Rattle.std.specs.Io.KnownBytes.{Appends};
ghost use Rattle.thr_wire.specs.Bytes.{TookAll, TookAtMost, TookMoreThan};
ghost use Rattle.thr_wire.specs.Causes.{Rose};

use crate::fault::{WireFault, WriteFault};
use crate::wire::{Sink, Source};
use std::alloc::Global;

/// How many bytes one read asks for at most.
const PIECE: usize = 4096;

/// All the bytes that a source has left, where they are at most `max`. It stops after at most `max + 2` reads, since each
/// but the last takes a byte. The source has lost what was taken, also where the answer is a fault.
pub fn read_all<S: Source>(alloc: Global, source: &mut S, max: u64) -> Result<Vec<u8>, WireFault>
    requires { max ≤ 2 ^ 40 }
    ensures whole { IfOk result (λ bytes. TookAll (S.left source.old) (S.left source.new) bytes.items) }
    ensures within { IfOk result (λ bytes. vec_len bytes ≤ max) }

    // A read fault is the source's own, and the input is too long exactly where more than the limit was taken.
    ensures fault { IsErrOf result WireFault.ReadFault → Rose (S.faults source.old) (S.faults source.new) }
    ensures long { IsErrOf result WireFault.TooLong → IfSome (S.left source.old) (λ before. TookMoreThan max before (S.left source.new)) }
    ensures only_long { IfSome (S.left source.old) (λ before. TookMoreThan max before (S.left source.new) → IsErrOf result WireFault.TooLong) }
    ensures at_most { TookAtMost (max + 1) (S.left source.old) (S.left source.new) }
    ensures later { S.faults source.old ≤ S.faults source.new }
    ensures quiet { ¬ (IsErrOf result WireFault.ReadFault) → S.faults source.new ≡ S.faults source.old }
{
    let mut bytes = Vec::new(alloc);
    let mut buf = [0u8; PIECE];
    for _ in 0..max + 2 {
        let room = max + 1 - bytes.len() as u64;
        let want = room.min(PIECE as u64) as usize;
        match source.read(&mut buf[..want]) {
            Ok(0) => return Ok(bytes),
            Ok(n) => {
                if n as u64 == room {
                    return Err(WireFault::TooLong);
                }
                if bytes.extend_from_slice(&buf[..n]).is_err() {
                    return Err(WireFault::NoMemory);
                }
            }
            Err(_) => return Err(WireFault::ReadFault),
        }
    }
    unreachable!()
}

/// Writes all of `bytes`, or fails with a part of them written.
pub fn write_all<K: Sink>(sink: &mut K, bytes: &[u8]) -> Result<(), WriteFault>
    ensures whole { OnOk result (Appends (K.held sink.old) (K.held sink.new) bytes.now) }
    ensures prefix { OnErr result ((n : ℕ) × Appends (K.held sink.old) (K.held sink.new) (take n bytes.now)) }
    ensures cause { OnErr result (Rose (K.faults sink.old) (K.faults sink.new)) }
    ensures later { K.faults sink.old ≤ K.faults sink.new }
    ensures quiet { OnOk result (K.faults sink.new ≡ K.faults sink.old) }
{
    let mut at: usize = 0;
    while at < bytes.len() {
        match sink.write(&bytes[at..]) {
            Ok(n) => at += n,
            Err(_) => return Err(WriteFault::Failed),
        }
    }
    Ok(())
}
