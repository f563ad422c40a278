//! Laws of a pass: each function does nothing, and its contract is the law.
ghost use Rattle.std.specs.Prelude.{◌≡◌, length};
ghost use Rattle.mbuf_pool.specs.Passes.{taken_by, given_by, lowered_by, raised_by};

use crate::pass::PoolPass;

/// Each slot that a pass took has one lowering of the count, and each that it gave has one raising.
pub fn one_step_each(pass: &PoolPass)
    ensures taken { lowered_by pass.now ≡ length (taken_by pass.now) }
    ensures given { raised_by pass.now ≡ length (given_by pass.now) }
{
    let _ = pass;
}
