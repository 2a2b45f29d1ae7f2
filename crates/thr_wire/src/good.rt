//! Devices in memory that have no faults of their own.

ghost use Rattle.std.specs.Prelude.{◌≡◌, ◌<◌, ◌≤◌, [], ◌++◌, length, drop, Some, IfOk, OnOk, OnErr};
ghost use Rattle.thr_wire.specs.Causes.{next_count};

use crate::fault::Failed;
use crate::wire::{Sink, Source};
use std::alloc::Global;
use std::marker::Model;

/// A source over bytes in memory that never fails. Contracts see the bytes that are left.
#[derive(Drop)]
pub struct GoodSource {
    bytes: Vec<u8>,
    at: usize,
}

impl Model for GoodSource {
    ghost use Rattle.std.specs.Prelude.{List, ℕ, drop, ◌≤◌, vec_len};

    ghost Value = { List ℕ };

    ghost view = { λ s. drop s.at s.bytes.items };

    ghost invariant = { λ s. s.at ≤ vec_len s.bytes };
}

impl GoodSource {
    pub fn new(bytes: Vec<u8>) -> GoodSource
        ensures { result ≡ bytes.items }
    {
        GoodSource { bytes, at: 0 }
    }
}

impl Source for GoodSource {
    ghost left = { λ s. Some s };

    ghost faults = { λ _. 0 };

    fn read(&mut self, buf: &mut [u8]) -> Result<usize, Failed> {
        let left = &self.bytes.as_slice()[self.at..];
        let n = left.len().min(buf.len());
        buf[..n].copy_from_slice(&left[..n]);
        self.at += n;
        Ok(n)
    }
}

/// A sink in memory that fails only where it finds no memory. Contracts see what it holds, how often it has failed, and its
/// room: how many bytes more it holds without taking memory.
#[derive(Drop)]
pub struct GoodSink {
    bytes: Vec<u8>,
    faults: u64,
}

impl Model for GoodSink {
    ghost use Rattle.std.specs.Prelude.{◌-◌, vec_capacity, vec_len};
    ghost use Rattle.thr_wire.specs.Devices.{SinkDevice};

    ghost Value = { SinkDevice };

    ghost view = { λ s. record { bytes = s.bytes.items; faults = s.faults; room = vec_capacity s.bytes - vec_len s.bytes } };
}

impl GoodSink {
    pub fn new(alloc: Global) -> GoodSink
        ensures { result ≡ record { bytes = []; faults = 0; room = 0 } }
    {
        GoodSink {
            bytes: Vec::new(alloc),
            faults: 0,
        }
    }

    pub fn as_slice(&self) -> &[u8]
        ensures { result.now ≡ self.now.bytes }
    {
        self.bytes.as_slice()
    }
}

impl Sink for GoodSink {
    ghost held = { λ s. Some s.bytes };

    ghost faults = { λ s. s.faults };

    fn write(&mut self, bytes: &[u8]) -> Result<usize, Failed>
        // It takes all that it is given, or for want of memory nothing: where there is room it takes all.
        ensures full { OnErr result (self.old.room < length bytes.now) }
        ensures all { IfOk result (λ n. n ≡ length bytes.now) }
        ensures gained { OnOk result (self.new.bytes ≡ self.old.bytes ++ bytes.now) }
        ensures untouched { OnErr result (self.new.bytes ≡ self.old.bytes) }
        ensures later { self.old.faults ≤ self.new.faults }
        ensures quiet { OnOk result (self.new.faults ≡ self.old.faults) }
        ensures rises { OnErr result (self.new.faults ≡ next_count self.old.faults) }
    {
        match self.bytes.extend_from_slice(bytes) {
            Ok(()) => Ok(bytes.len()),
            Err(_) => {
                self.faults = self.faults.saturating_add(1);
                Err(Failed)
            }
        }
    }
}
