//! The text of a profile, which is read back as the same profile.
ghost use Rattle.std.specs.Prelude.{◌≡◌, ◌≤◌, [], length, None, IfOk};
ghost use Rattle.qos_profile.specs.declared.limits.TheConstants.{MAX_TEXT};
ghost use Rattle.profile_print.specs.Text.{text_of};
ghost use Rattle.qos_profile.specs.Faults.{fault_of_text};
ghost use Rattle.qos_profile.specs.Planned.{profile_of};

use crate::forms::forms;
use crate::laws::texts_are_read_back;
use profile_plan::Profile;
use qos_base::NoMemory;
use std::alloc::Global;

/// The canonical text of a profile: every section and every key in the order of the manual, sections of one
/// kind by number, classes and pipes one a line, and all 64 code points. It does not say which sections were
/// skipped.
///
/// [`read_profile`](crate::read_profile) reads it as the same profile, with nothing skipped, unless it is
/// longer than [`MAX_TEXT`](crate::MAX_TEXT) bytes, which takes tens of thousands of pipes.
pub fn profile_text(alloc: Global, p: &Profile) -> Result<Vec<u8>, NoMemory>
    ensures text { IfOk result (λ text. text.items ≡ text_of p.now) }
    ensures fault { IfOk result (λ text. length text.items ≤ MAX_TEXT → fault_of_text text.items ≡ None) }
    ensures profile { IfOk result (λ text. profile_of text.items ≡ record p.now { skipped = [] }) }
{
    p.limits();
    forms(p);
    texts_are_read_back();
    profile_print::profile_text(alloc, p)
}
