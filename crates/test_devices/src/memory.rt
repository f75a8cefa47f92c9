//! `Given` and `Taken`, an input and an output in memory.
ghost use Rattle.std.specs.Prelude.{◌≡◌, ◌+◌, ◌-◌, ◌<◌, ◌≤◌, ◌↔◌, ◌⊎◌, Some, None, false, [], length, min, IfOk, IfErr, IsErr, IsTrue};
ghost use Rattle.std.specs.Io.KnownBytes.{ReadConsumes, WriteAppends};
ghost use Rattle.pla.specs.Device.{TellsFlush, TellsRead, TellsWrite};
ghost use Rattle.test_devices.specs.Memory.{one_nearer};

use pla::{Broken, Ending, Input, Output, ReadCalls, WriteCalls};
use std::alloc::{AllocError, Global};
use std::marker::Model;

/// An input that delivers stored bytes, at most a given number a read, and then ends or fails. One
/// read may be made to fail by itself; the others are as they were without that.
#[derive(Drop)]
pub struct Given {
    bytes: Vec<u8>,
    at: usize,
    most: usize,
    ending: Ending,
    until_failure: Option<u64>,
    calls: ReadCalls,
}

impl Model for Given {
    ghost use Rattle.std.specs.Prelude.{◌<◌, ◌≤◌, drop, vec_len};
    ghost use Rattle.test_devices.specs.Memory.{Given as Store};

    ghost Value = { Store };

    ghost view = { λ s. record {
      left = drop s.at s.bytes.items;
      delivered = s.at;
      most = s.most;
      ending = s.ending;
      until_failure = s.until_failure;
      calls = s.calls;
    } };

    ghost invariant = { λ s. (s.at ≤ vec_len s.bytes) × (0 < s.most) };
}

impl Given {
    /// These bytes, at most `most` of them a read, and then `ending`. A failing one fails at each
    /// read after the last byte.
    pub fn new(bytes: Vec<u8>, most: usize, ending: Ending) -> Given
        requires { 0 < most }
        ensures { result ≡ record {
          left = bytes.items;
          delivered = 0;
          most = most;
          ending = ending;
          until_failure = None;
          calls = record { failures = 0; broken = false };
        } }
    {
        Given {
            bytes,
            at: 0,
            most,
            ending,
            until_failure: None,
            calls: ReadCalls::new(),
        }
    }

    /// This input, but the one read fails that comes after `reads` further ones. The reads after it
    /// are as they were.
    pub fn failing_once_after(self, reads: u64) -> Given
        ensures { result ≡ record self { until_failure = Some reads } }
    {
        Given {
            bytes: self.bytes,
            at: self.at,
            most: self.most,
            ending: self.ending,
            until_failure: Some(reads),
            calls: self.calls,
        }
    }

    /// How many bytes it has delivered.
    pub fn delivered(&self) -> usize
        ensures { result ≡ self.now.delivered }
    {
        self.at
    }

    // Whether the next read fails.
    fn fails(&self) -> bool
        ensures { IsTrue result ↔ ((self.now.until_failure ≡ Some 0)
            ⊎ ((self.now.left ≡ []) × (self.now.ending ≡ Ending.Failed))) }
    {
        self.until_failure == Some(0)
            || (self.at == self.bytes.len() && self.ending == Ending::Failed)
    }
}

impl Input for Given {
    ghost left = { λ s. Some s.left };

    ghost calls = { λ s. s.calls };

    fn read(&mut self, buffer: &mut [u8]) -> Result<usize, Broken>
        ensures bound { IfOk result (λ n. n ≤ length buffer.new) }
        ensures bytes { ReadConsumes (Some self.old.left) (Some self.new.left) result buffer.new }
        ensures count { TellsRead self.old.calls self.new.calls result }
        ensures delivered { IfOk result (λ n. self.new.delivered ≡ self.old.delivered + n) }
        ensures most { IfOk result
            (λ n. n ≡ min (min (length self.old.left) self.old.most) (length buffer.old)) }
        ensures fails { IsErr result ↔ ((self.old.until_failure ≡ Some 0)
            ⊎ ((self.old.left ≡ []) × (self.old.ending ≡ Ending.Failed))) }
        ensures undelivered { IfErr result (λ _. self.new.delivered ≡ self.old.delivered) }
        ensures same_left { IfErr result (λ _. self.new.left ≡ self.old.left) }
        ensures same_most { self.new.most ≡ self.old.most }
        ensures same_ending { self.new.ending ≡ self.old.ending }
        ensures nearer { self.new.until_failure ≡ one_nearer self.old.until_failure }
    {
        let fails = self.fails();
        self.until_failure = calls_left_after_one(self.until_failure);
        if fails {
            self.calls = self.calls.after_broken_read();
            return Err(Broken);
        }
        let rest = self.bytes.len() - self.at;
        let count = rest.min(self.most).min(buffer.len());
        let from = self.at;
        buffer[..count].copy_from_slice(&self.bytes[from..from + count]);
        self.at += count;
        self.calls = self.calls.after_read();
        Ok(count)
    }
}

// How many calls come before the one that is to fail, after one more call; `None` if it has failed.
fn calls_left_after_one(until_failure: Option<u64>) -> Option<u64>
    ensures { result ≡ one_nearer until_failure }
{
    match until_failure {
        Some(0) | None => None,
        Some(calls) => Some(calls - 1),
    }
}

/// An output that takes bytes up to its room, at most a given number a write, and then fails. One
/// write may be made to fail by itself; the others are as they were without that.
#[derive(Drop)]
pub struct Taken {
    bytes: Vec<u8>,
    used: usize,
    most: usize,
    flush_fails: bool,
    until_failure: Option<u64>,
    calls: WriteCalls,
}

impl Model for Taken {
    ghost use Rattle.std.specs.Prelude.{◌-◌, ◌<◌, ◌≤◌, take, vec_len};
    ghost use Rattle.test_devices.specs.Memory.{Taken as Room};

    ghost Value = { Room };

    ghost view = { λ s. record {
      taken = take s.used s.bytes.items;
      room = vec_len s.bytes - s.used;
      most = s.most;
      flush_fails = s.flush_fails;
      until_failure = s.until_failure;
      calls = s.calls;
    } };

    ghost invariant = { λ s. (s.used ≤ vec_len s.bytes) × (0 < s.most) };
}

impl Taken {
    /// Nothing taken, and room for `room` bytes, at most `most` of them a write. Each flush fails
    /// if `flush_fails` is set.
    pub fn new(
        alloc: Global,
        room: usize,
        most: usize,
        flush_fails: bool,
    ) -> Result<Taken, AllocError>
        requires { 0 < most }
        ensures { IfOk result (λ t. t ≡ record {
          taken = [];
          room = room;
          most = most;
          flush_fails = flush_fails;
          until_failure = None;
          calls = record {
            counts = record { failures = 0; flushes = 0; failed_flushes = 0 };
            broken = false;
            flushed = false;
          };
        }) }
    {
        let bytes = vec![in alloc; 0; room]?;
        Ok(Taken {
            bytes,
            used: 0,
            most,
            flush_fails,
            until_failure: None,
            calls: WriteCalls::new(),
        })
    }

    /// This output, but the one write fails that comes after `writes` further ones. The writes
    /// after it are as they were.
    pub fn failing_once_after(self, writes: u64) -> Taken
        ensures { result ≡ record self { until_failure = Some writes } }
    {
        Taken {
            bytes: self.bytes,
            used: self.used,
            most: self.most,
            flush_fails: self.flush_fails,
            until_failure: Some(writes),
            calls: self.calls,
        }
    }

    /// What came of the writes and flushes.
    pub fn calls(&self) -> WriteCalls
        ensures { result ≡ self.now.calls }
    {
        self.calls
    }

    /// What it has taken.
    pub fn bytes(&self) -> &[u8]
        ensures { result.now ≡ self.now.taken }
    {
        &self.bytes[..self.used]
    }
}

impl Output for Taken {
    ghost taken = { λ s. Some s.taken };

    ghost calls = { λ s. s.calls };

    fn write(&mut self, bytes: &[u8]) -> Result<usize, Broken>
        ensures bound { IfOk result (λ n. n ≤ length bytes.now) }
        ensures some { IfOk result (λ n. 0 < length bytes.now → 0 < n) }
        ensures bytes { WriteAppends (Some self.old.taken) (Some self.new.taken) result bytes.now }
        ensures count { TellsWrite self.old.calls self.new.calls result }
        ensures most { IfOk result
            (λ n. n ≡ min (min self.old.room self.old.most) (length bytes.now)) }
        ensures room { IfOk result (λ n. self.new.room + n ≡ self.old.room) }
        ensures fails { IsErr result ↔ ((self.old.until_failure ≡ Some 0)
            ⊎ ((self.old.room ≡ 0) × (0 < length bytes.now))) }
        ensures same_room { IfErr result (λ _. self.new.room ≡ self.old.room) }
        ensures same_most { self.new.most ≡ self.old.most }
        ensures same_flush { self.new.flush_fails ≡ self.old.flush_fails }
        ensures nearer { self.new.until_failure ≡ one_nearer self.old.until_failure }
    {
        let due = self.until_failure == Some(0);
        self.until_failure = calls_left_after_one(self.until_failure);
        let room = self.bytes.len() - self.used;
        if due || (room == 0 && !bytes.is_empty()) {
            self.calls = self.calls.after_broken_write();
            return Err(Broken);
        }
        let count = room.min(self.most).min(bytes.len());
        let from = self.used;
        self.bytes[from..from + count].copy_from_slice(&bytes[..count]);
        self.used += count;
        self.calls = self.calls.after_write();
        Ok(count)
    }

    fn flush(&mut self) -> Result<(), Broken>
        ensures bytes { self.new.taken ≡ self.old.taken }
        ensures count { TellsFlush self.old.calls self.new.calls result }
        ensures fails { IsErr result ↔ IsTrue self.old.flush_fails }
        ensures same_room { self.new.room ≡ self.old.room }
        ensures same_most { self.new.most ≡ self.old.most }
        ensures same_flush { self.new.flush_fails ≡ self.old.flush_fails }
        ensures same_until { self.new.until_failure ≡ self.old.until_failure }
    {
        if self.flush_fails {
            self.calls = self.calls.after_broken_flush();
            return Err(Broken);
        }
        self.calls = self.calls.after_flush();
        Ok(())
    }
}
