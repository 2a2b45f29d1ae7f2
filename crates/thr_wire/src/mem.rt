//! Devices in memory that give and take little at a time, and fail where they are told to.

ghost use Rattle.std.specs.Prelude.{◌≡◌, ◌<◌, ◌≤◌, ◌↔◌, [], length, min, IsTrue, Contains, Some, IfOk, OnOk, OnErr, IsErr};
ghost use Rattle.std.specs.Io.KnownBytes.{ReadConsumes, WriteAppends};
ghost use Rattle.thr_wire.specs.Causes.{next_count};
ghost use Rattle.thr_wire.specs.Devices.{IsToFail, after_call};

use crate::fault::Failed;
use crate::wire::{Sink, Source};
use std::alloc::Global;
use std::marker::Model;

/// When a device in memory fails, and how much it moves at a call.
#[derive(Drop)]
struct Schedule {
    /// The calls that are to fail, by their numbers from 0 on.
    failing: Vec<u64>,
    /// How many bytes a call moves at most.
    most: usize,
    calls: u64,
}

impl Schedule {
    /// Counts one call, and answers whether it is to fail.
    fn fails_now(&mut self) -> bool
        ensures most { self.new.most ≡ self.old.most }
        ensures counts { self.new.calls ≡ next_count self.old.calls }
        ensures listed { IsTrue result ↔ Contains self.old.failing.items self.old.calls }
        ensures failing { self.new.failing ≡ self.old.failing }
    {
        let call = self.calls;
        self.calls = self.calls.saturating_add(1);
        self.failing.contains(&call)
    }
}

/// A source over bytes in memory. Contracts see the bytes that are left, how often it has failed, and its schedule.
#[derive(Drop)]
pub struct MemSource {
    bytes: Vec<u8>,
    at: usize,
    schedule: Schedule,
    faults: u64,
}

impl Model for MemSource {
    ghost use Rattle.std.specs.Prelude.{drop, ◌≤◌, ◌<◌, vec_len};
    ghost use Rattle.thr_wire.specs.Devices.{CallSchedule, MemSourceDevice};

    ghost Value = { MemSourceDevice };

    ghost view = { λ s. record {
      bytes = drop s.at s.bytes.items;
      faults = s.faults;
      schedule = record { failing = s.schedule.failing.items; most = s.schedule.most; calls = s.schedule.calls };
    } };

    ghost invariant = { λ s. (s.at ≤ vec_len s.bytes) × (0 < s.schedule.most) };
}

impl MemSource {
    /// A source of these bytes that gives at most `most` of them at a call. The calls with the numbers in `failing`, from
    /// 0 on, fail.
    pub fn new(bytes: Vec<u8>, most: usize, failing: Vec<u64>) -> MemSource
        requires { 0 < most }
        ensures { result ≡ record {
          bytes = bytes.items;
          faults = 0;
          schedule = record { failing = failing.items; most = most; calls = 0 };
        } }
    {
        MemSource {
            bytes,
            at: 0,
            schedule: Schedule {
                failing,
                most,
                calls: 0,
            },
            faults: 0,
        }
    }

    /// How many calls there were.
    pub fn calls(&self) -> u64
        ensures { result ≡ self.now.schedule.calls }
    {
        self.schedule.calls
    }
}

impl Source for MemSource {
    ghost left = { λ s. Some s.bytes };

    ghost faults = { λ s. s.faults };

    fn read(&mut self, buf: &mut [u8]) -> Result<usize, Failed>
        // A call fails exactly where it is listed, and gives else what is left, as far as there is room and up to the most.
        ensures listed { IsErr result ↔ IsToFail self.old.schedule }
        ensures moved { IfOk result (λ n. n ≡ min (min (length self.old.bytes) (length buf.new)) self.old.schedule.most) }
        ensures bytes { ReadConsumes (Some self.old.bytes) (Some self.new.bytes) result buf.new }

        // Each call is counted, and each fault.
        ensures counts { self.new.schedule ≡ after_call self.old.schedule }
        ensures later { self.old.faults ≤ self.new.faults }
        ensures quiet { OnOk result (self.new.faults ≡ self.old.faults) }
        ensures rises { OnErr result (self.new.faults ≡ next_count self.old.faults) }
    {
        if self.schedule.fails_now() {
            self.faults = self.faults.saturating_add(1);
            return Err(Failed);
        }
        let left = &self.bytes.as_slice()[self.at..];
        let n = left.len().min(buf.len()).min(self.schedule.most);
        buf[..n].copy_from_slice(&left[..n]);
        self.at += n;
        Ok(n)
    }
}

/// A sink in memory. Contracts see what it holds, how often it has failed, its room (how many bytes more it holds without
/// taking memory), and its schedule.
#[derive(Drop)]
pub struct MemSink {
    bytes: Vec<u8>,
    schedule: Schedule,
    faults: u64,
}

impl Model for MemSink {
    ghost use Rattle.std.specs.Prelude.{◌-◌, ◌<◌, vec_capacity, vec_len};
    ghost use Rattle.thr_wire.specs.Devices.{CallSchedule, MemSinkDevice};

    ghost Value = { MemSinkDevice };

    ghost view = { λ s. record {
      bytes = s.bytes.items;
      faults = s.faults;
      room = vec_capacity s.bytes - vec_len s.bytes;
      schedule = record { failing = s.schedule.failing.items; most = s.schedule.most; calls = s.schedule.calls };
    } };

    ghost invariant = { λ s. 0 < s.schedule.most };
}

impl MemSink {
    /// An empty sink that takes at most `most` bytes at a call. The calls with the numbers in `failing`, from 0 on, fail,
    /// and so does a call that finds no memory.
    pub fn new(alloc: Global, most: usize, failing: Vec<u64>) -> MemSink
        requires { 0 < most }
        ensures { result ≡ record {
          bytes = [];
          faults = 0;
          room = 0;
          schedule = record { failing = failing.items; most = most; calls = 0 };
        } }
    {
        MemSink {
            bytes: Vec::new(alloc),
            schedule: Schedule {
                failing,
                most,
                calls: 0,
            },
            faults: 0,
        }
    }

    pub fn as_slice(&self) -> &[u8]
        ensures { result.now ≡ self.now.bytes }
    {
        self.bytes.as_slice()
    }
}

impl Sink for MemSink {
    ghost held = { λ s. Some s.bytes };

    ghost faults = { λ s. s.faults };

    fn write(&mut self, bytes: &[u8]) -> Result<usize, Failed>
        requires { 0 < length bytes.now }

        // A call that is listed fails, and so may one that has no room and finds no memory; else it takes what it is given,
        // up to the most.
        ensures listed { IsToFail self.old.schedule → IsErr result }
        ensures full { OnErr result (¬ (IsToFail self.old.schedule) → self.old.room < min (length bytes.now) self.old.schedule.most) }
        ensures some { IfOk result (λ n. 0 < n) }
        ensures moved { IfOk result (λ n. n ≡ min (length bytes.now) self.old.schedule.most) }
        ensures bytes { WriteAppends (Some self.old.bytes) (Some self.new.bytes) result bytes.now }

        // Each call is counted, and each fault.
        ensures counts { self.new.schedule ≡ after_call self.old.schedule }
        ensures later { self.old.faults ≤ self.new.faults }
        ensures quiet { OnOk result (self.new.faults ≡ self.old.faults) }
        ensures rises { OnErr result (self.new.faults ≡ next_count self.old.faults) }
    {
        let n = bytes.len().min(self.schedule.most);
        if self.schedule.fails_now() || self.bytes.extend_from_slice(&bytes[..n]).is_err() {
            self.faults = self.faults.saturating_add(1);
            return Err(Failed);
        }
        Ok(n)
    }
}
