//! A source in memory whose failures are planned.
ghost use Rattle.std.specs.Prelude.{◌≡◌, ◌↔◌, min, length, take, drop, ◌++◌, IfOk, OnOk, OnErr, IsErr};

use crate::calls::CallCounter;
use crate::{Failed, Source, WholeSource};
use std::marker::Model;

/// Bytes in memory to read from, of which some reads fail and are counted.
#[derive(Debug, Drop)]
pub struct MemSource {
    source: WholeSource,
    calls: CallCounter,
}

impl Model for MemSource {
    ghost use Rattle.qos_io.specs.Memory.{SourceState};

    ghost Value = { SourceState };

    ghost view = { λ a. record { left = a.source; calls = a.calls } };
}

impl MemSource {
    ghost use Rattle.qos_io.specs.Memory.{no_calls};

    /// A source that has `bytes` left. The reads with the numbers in `fails`, counted from 0, fail.
    pub fn new(bytes: Vec<u8>, fails: Vec<u32>) -> MemSource
        ensures left { result.left ≡ bytes.items }
        ensures calls { result.calls ≡ no_calls fails.items }
    {
        MemSource::over(WholeSource::new(bytes), fails)
    }

    /// This source, of which the reads with the numbers in `fails` will fail.
    pub(crate) fn over(source: WholeSource, fails: Vec<u32>) -> MemSource
        ensures left { result.left ≡ source }
        ensures calls { result.calls ≡ no_calls fails.items }
    {
        MemSource {
            source,
            calls: CallCounter::new(fails),
        }
    }
}

impl Source for MemSource {
    ghost use Rattle.std.specs.Prelude.{◌≡◌, Some, []};
    ghost use Rattle.qos_io.specs.Fault.{HasRisen};
    ghost use Rattle.qos_io.specs.Memory.{FailsNext, after_success, after_failure};

    ghost remaining = { λ s. Some s.left };

    ghost faults = { λ s. s.calls.faults };

    ghost IsSure = { λ s. s.calls.fails ≡ [] };

    /// Fails exactly where the number of this call is listed. Else it moves as many of the bytes that are left
    /// as `buf` has room for.
    fn read(&mut self, buf: &mut [u8]) -> Result<usize, Failed>
        ensures listed { IsErr result ↔ FailsNext self.old.calls }
        ensures many { IfOk result (λ n. n ≡ min (length buf.old) (length self.old.left)) }
        ensures moved { IfOk result (λ n. buf.new ≡ take n self.old.left ++ drop n buf.old) }
        ensures left { IfOk result (λ n. self.new.left ≡ drop n self.old.left) }
        ensures success { OnOk result (self.new.calls ≡ after_success self.old.calls) }
        ensures failed { OnErr result (HasRisen self.old.calls.faults self.new.calls.faults) }
        ensures failure { OnErr result (self.new.calls ≡ after_failure self.old.calls) }
        ensures kept { OnErr result (self.new.left ≡ self.old.left) }
        ensures untouched { OnErr result (buf.new ≡ buf.old) }
    {
        if self.calls.next_fails() {
            return Err(Failed);
        }
        self.source.read(buf)
    }
}
