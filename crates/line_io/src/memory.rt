ghost use Rattle.std.specs.Prelude.{◌≡◌, ◌<◌, ◌≤◌, ◌++◌, length, take, drop, min, true, Some, IfOk, OnErr, IsErr};
ghost use Rattle.line_io.specs.Memory.{Supply, Store, counted, is_listed};
ghost use Rattle.line_io.specs.Streams.{Rose, Takes, Puts};

use crate::streams::{Failed, Sink, Source};
use fault_count::{is_to_fail, one_more};
use std::marker::Model;

/// Bytes in memory, as a source. Of its calls just those fail whose numbers were listed.
#[derive(Drop)]
pub struct MemSource {
    bytes: Vec<u8>,
    at: usize,
    calls: u64,
    faults: u64,
    fails: Vec<u64>,
}

impl Model for MemSource {
    ghost use Rattle.std.specs.Prelude.{◌≤◌, length, drop};
    ghost use Rattle.line_io.specs.Memory.{Supply};

    ghost Value = { Supply };

    ghost view = { λ s. record { left = drop s.at s.bytes.items; calls = s.calls; faults = s.faults; fails = s.fails.items } };

    ghost invariant = { λ s. s.at ≤ length s.bytes.items };
}

impl MemSource {
    /// A source of these bytes. The calls of `take` with the numbers in `fails` fail, counted from 1.
    pub fn new(bytes: Vec<u8>, fails: Vec<u64>) -> MemSource
        ensures { result ≡ record { left = bytes.items; calls = 0; faults = 0; fails = fails.items } }
    {
        MemSource {
            bytes,
            at: 0,
            calls: 0,
            faults: 0,
            fails,
        }
    }
}

impl Source for MemSource {
    ghost left = { λ s. Some s.left };

    ghost faults = { λ s. s.faults };

    fn take(&mut self, out: &mut [u8]) -> Result<usize, Failed>
        requires { 0 < length out.old }
        ensures within { IfOk result (λ n. n ≤ length out.old) }
        ensures taken { IfOk result (λ n. Takes (Some self.old.left) (Some self.new.left) out.new n) }
        ensures kept { OnErr result (Some self.new.left ≡ Some self.old.left) }
        ensures later { self.old.faults ≤ self.new.faults }
        ensures cause { OnErr result (Rose self.old.faults self.new.faults) }
        ensures listed { is_listed self.old.fails (counted self.old.calls) ≡ true → IsErr result }
        ensures unlisted { OnErr result (is_listed self.old.fails (counted self.old.calls) ≡ true) }
        ensures ok { IfOk result (λ n. (n ≡ min (length self.old.left) (length out.old)) × (self.new ≡ record self.old { left = drop n self.old.left; calls = counted self.old.calls })) }
        ensures err { OnErr result (self.new ≡ record self.old { calls = counted self.old.calls; faults = counted self.old.faults }) }
    {
        self.calls = one_more(self.calls);
        if is_to_fail(self.fails.as_slice(), self.calls) {
            self.faults = one_more(self.faults);
            return Err(Failed);
        }
        let n = copy_front(out, &self.bytes.as_slice()[self.at..]);
        self.at += n;
        Ok(n)
    }
}

/// Bytes in memory, as a sink. Of its calls those fail whose numbers were listed, and those that find no memory.
#[derive(Drop)]
pub struct MemSink {
    bytes: Vec<u8>,
    calls: u64,
    faults: u64,
    fails: Vec<u64>,
}

impl Model for MemSink {
    ghost use Rattle.line_io.specs.Memory.{Store};

    ghost Value = { Store };

    ghost view = { λ s. record { bytes = s.bytes.items; calls = s.calls; faults = s.faults; fails = s.fails.items } };
}

impl MemSink {
    /// A sink that holds these bytes. The calls of `put` with the numbers in `fails` fail, counted from 1.
    pub fn new(bytes: Vec<u8>, fails: Vec<u64>) -> MemSink
        ensures { result ≡ record { bytes = bytes.items; calls = 0; faults = 0; fails = fails.items } }
    {
        MemSink {
            bytes,
            calls: 0,
            faults: 0,
            fails,
        }
    }

    /// The bytes that it holds.
    pub fn bytes(&self) -> &[u8]
        ensures { result.now ≡ self.now.bytes }
    {
        self.bytes.as_slice()
    }
}

impl Sink for MemSink {
    ghost held = { λ s. Some s.bytes };

    ghost faults = { λ s. s.faults };

    fn put(&mut self, bytes: &[u8]) -> Result<usize, Failed>
        requires { 0 < length bytes.now }
        ensures within { IfOk result (λ n. n ≤ length bytes.now) }
        ensures some { IfOk result (λ n. 0 < n) }
        ensures put { IfOk result (λ n. Puts (Some self.old.bytes) (Some self.new.bytes) bytes.now n) }
        ensures kept { OnErr result (Some self.new.bytes ≡ Some self.old.bytes) }
        ensures later { self.old.faults ≤ self.new.faults }
        ensures cause { OnErr result (Rose self.old.faults self.new.faults) }
        ensures listed { is_listed self.old.fails (counted self.old.calls) ≡ true → IsErr result }
        ensures ok { IfOk result (λ n. (n ≡ length bytes.now) × (self.new ≡ record self.old { bytes = self.old.bytes ++ bytes.now; calls = counted self.old.calls })) }
        ensures err { OnErr result (self.new ≡ record self.old { calls = counted self.old.calls; faults = counted self.old.faults }) }
    {
        self.calls = one_more(self.calls);
        if is_to_fail(self.fails.as_slice(), self.calls) {
            self.faults = one_more(self.faults);
            return Err(Failed);
        }
        if self.bytes.extend_from_slice(bytes).is_err() {
            self.faults = one_more(self.faults);
            return Err(Failed);
        }
        Ok(bytes.len())
    }
}

// As many bytes as `out` has room for.
fn copy_front(out: &mut [u8], from: &[u8]) -> usize
    ensures n { result ≡ min (length from.now) (length out.old) }
    ensures out { take result out.new ≡ take result from.now }
{
    let n = if from.len() < out.len() {
        from.len()
    } else {
        out.len()
    };
    out[..n].copy_from_slice(&from[..n]);
    n
}
