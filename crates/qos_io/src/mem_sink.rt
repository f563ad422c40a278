//! A sink in memory whose failures are planned.
ghost use Rattle.std.specs.Prelude.{◌≡◌, ◌↔◌, ◌++◌, [], OnOk, OnErr, IsErrOf};

use crate::calls::CallCounter;
use crate::{PutFault, Sink, WholeSink};
use std::alloc::Global;
use std::marker::Model;

/// Bytes in memory to write to, of which some puts fail and are counted.
#[derive(Drop)]
pub struct MemSink {
    sink: WholeSink,
    calls: CallCounter,
}

impl Model for MemSink {
    ghost use Rattle.qos_io.specs.Memory.{SinkState};

    ghost Value = { SinkState };

    ghost view = { λ a. record { held = a.sink.held; name = a.sink.name; calls = a.calls } };
}

impl MemSink {
    ghost use Rattle.qos_io.specs.Memory.{no_calls};

    /// An empty sink of no name. The puts with the numbers in `fails`, counted from 0, fail.
    pub fn new(alloc: Global, fails: Vec<u32>) -> MemSink
        ensures { result ≡ record { held = []; name = None; calls = no_calls fails.items } }
    {
        MemSink::over(WholeSink::new(alloc), fails)
    }

    /// The bytes that it holds.
    pub fn bytes(&self) -> &[u8]
        ensures { result.now ≡ self.now.held }
    {
        self.sink.bytes()
    }

    /// This sink, of which the puts with the numbers in `fails` will fail.
    pub(crate) fn over(sink: WholeSink, fails: Vec<u32>) -> MemSink
        ensures { result ≡ record { held = sink.held; name = sink.name; calls = no_calls fails.items } }
    {
        MemSink {
            sink,
            calls: CallCounter::new(fails),
        }
    }

    /// The sink without its failures.
    pub(crate) fn into_whole(self) -> WholeSink
        ensures { result ≡ record { held = self.held; name = self.name } }
    {
        let MemSink { sink, calls: _ } = self;
        sink
    }
}

impl Sink for MemSink {
    ghost use Rattle.std.specs.Prelude.{◌≡◌, Some, []};
    ghost use Rattle.qos_io.specs.declared.sink.PutFault.TheVariants.{Failed};
    ghost use Rattle.qos_io.specs.Fault.{HasRisen};
    ghost use Rattle.qos_io.specs.Memory.{FailsNext, after_success, after_failure};

    ghost contents = { λ s. Some s.held };

    ghost name = { λ s. s.name };

    ghost faults = { λ s. s.calls.faults };

    ghost IsSure = { λ s. s.calls.fails ≡ [] };

    /// `Failed` exactly where the number of this call is listed, and `NoMemory` where memory was refused. Either
    /// way nothing was added.
    fn put(&mut self, bytes: &[u8]) -> Result<(), PutFault>
        ensures listed { IsErrOf result PutFault.Failed ↔ FailsNext self.old.calls }
        ensures added { OnOk result (self.new.held ≡ self.old.held ++ bytes.now) }
        ensures kept { OnErr result (self.new.held ≡ self.old.held) }
        ensures name { self.new.name ≡ self.old.name }
        ensures success { ¬ (FailsNext self.old.calls) → self.new.calls ≡ after_success self.old.calls }
        ensures failure { FailsNext self.old.calls → self.new.calls ≡ after_failure self.old.calls }
        ensures failed { IsErrOf result PutFault.Failed → HasRisen self.old.calls.faults self.new.calls.faults }
    {
        if self.calls.next_fails() {
            return Err(PutFault::Failed);
        }
        self.sink.put(bytes)
    }
}
