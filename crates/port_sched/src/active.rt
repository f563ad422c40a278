//! Which pipes of a subport have a packet.
ghost use Rattle.std.specs.Prelude.{◌≡◌, ◌+◌, ◌≤◌, ◌<◌, Bool, false, length, count_by, replicate, slice_set, IfOk};
ghost use Rattle.profile_plan.specs.declared.limits.TheConstants.{MAX_SUBPORT_PIPES};
ghost use Rattle.active_bitmap.specs.NextActive.{is_set, next_active};
ghost use Rattle.active_bitmap.specs.declared.bitmap.TheConstants.{MAX_PROBES};

use active_bitmap::ActiveBitmap;
use qos_base::{NoMemory, Steps};
use std::alloc::Global;
use std::marker::Model;
use std::sync::ledger::Ledger;

/// A bit for each pipe, which is set where it has a packet. How many are set is counted.
#[derive(Drop)]
pub(crate) struct ActivePipes {
    bits: ActiveBitmap,
    count: usize,
}

// Contracts see the bits.
impl Model for ActivePipes {
    ghost use Rattle.std.specs.Prelude.{◌≡◌, ◌≤◌, List, Bool, length, count_by};
    ghost use Rattle.profile_plan.specs.declared.limits.TheConstants.{MAX_SUBPORT_PIPES};

    ghost Value = { List Bool };

    ghost view = { λ a. a.bits };

    ghost invariant = { λ a. (length a.bits ≤ MAX_SUBPORT_PIPES) × (a.count ≡ count_by (λ b. b) a.bits) };
}

impl ActivePipes {
    /// So many pipes, from 1 to 4,096, none with a packet. All memory is taken here.
    pub(crate) fn none(alloc: Global, pipes: usize) -> Result<ActivePipes, NoMemory>
        requires some { 1 ≤ pipes }
        requires few { pipes ≤ MAX_SUBPORT_PIPES }
        ensures { IfOk result (λ a. a ≡ replicate pipes false) }
    {
        Ok(ActivePipes {
            bits: ActiveBitmap::new(alloc, pipes as u32)?,
            count: 0,
        })
    }

    /// A pipe that had a packet, or none, now has one or none.
    pub(crate) fn change(&mut self, pipe: usize, had: bool, has: bool)
        requires within { pipe < length self.old }
        requires had { is_set self.old pipe ≡ had }
        ensures { self.new ≡ slice_set self.old pipe has }
    {
        if had && !has {
            self.bits.clear(pipe as u32);
            self.count -= 1;
        } else if has && !had {
            self.bits.set(pipe as u32);
            self.count += 1;
        }
    }

    /// How many pipes have a packet.
    pub(crate) fn count(&self) -> usize
        ensures { result ≡ count_by (λ b. b) self.now }
    {
        self.count
    }

    /// The next pipe with a packet, from this one on and going round; None where none has one.
    pub(crate) fn next_from<L: Ledger>(&self, pipe: usize, steps: &mut Steps<L>) -> Option<usize>
        requires { pipe < length self.now }
        ensures next { result ≡ next_active pipe self.now }
        ensures probes { steps.new ≤ steps.old + MAX_PROBES }
    {
        let next = self.bits.next_from(pipe as u32, steps)?;
        Some(next as usize)
    }
}
