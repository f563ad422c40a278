//! A text to its profile, or to its first fault.
ghost use Rattle.std.specs.Prelude.{◌≡◌, ◌≤◌, length, IfOk};
ghost use Rattle.qos_profile.specs.declared.limits.TheConstants.{MAX_TEXT};
ghost use Rattle.qos_profile.specs.Faults.{at_line, with_total, first_of, fault_of_sections, fault_of_text, AreClear, Answers};
ghost use Rattle.qos_profile.specs.Planned.{plan_of, profile_of};

use crate::across::across_line;
use crate::build::plan::plan;
use crate::fault::{FaultKind, ProfileError, ProfileFault};
use crate::large::too_large;
use crate::limits::MAX_TEXT;
use crate::missing::missing_line;
use crate::naming::unnamed_line;
use crate::reading::read_sections;
use crate::section::Section;
use profile_plan::Profile;
use qos_base::NoMemory;
use std::alloc::Global;

fn first_of(
    missing: Option<u32>,
    unnamed: Option<u32>,
    across: Option<u32>,
    large: Option<u64>,
) -> Option<ProfileFault>
    ensures { result ≡ first_of missing unnamed across large }
{
    if let Some(line) = missing {
        return Some(at_line(FaultKind::Missing, line));
    }
    if let Some(line) = unnamed {
        return Some(at_line(FaultKind::NoSuchName, line));
    }
    if let Some(line) = across {
        return Some(at_line(FaultKind::OutOfRange, line));
    }
    match large {
        Some(total) => Some(with_total(total)),
        None => None,
    }
}

fn at_line(kind: FaultKind, line: u32) -> ProfileFault
    ensures { result ≡ at_line kind line }
{
    ProfileFault {
        line,
        kind,
        total: 0,
    }
}

fn with_total(total: u64) -> ProfileFault
    ensures { result ≡ with_total total }
{
    ProfileFault {
        line: 0,
        kind: FaultKind::TooLarge,
        total,
    }
}

fn fault_of_sections(sections: &[Section]) -> Option<ProfileFault>
    requires { length sections.now ≤ MAX_TEXT }
    ensures { result ≡ fault_of_sections sections.now }
{
    first_of(
        missing_line(sections),
        unnamed_line(sections),
        across_line(sections),
        too_large(sections),
    )
}

/// The profile that a text says, or its first fault.
///
/// The fault is found in this order: a text above [`MAX_TEXT`] bytes; then the first line at fault, with the
/// fault of the least number there; then what is missing, a name that is not there and a range across keys,
/// each at the least line; then what is too large in the whole.
pub fn read_profile(alloc: Global, text: &[u8]) -> Result<Profile, ProfileError>
    ensures fault { Answers result (fault_of_text text.now) }
    ensures profile { IfOk result (λ profile. profile ≡ profile_of text.now) }
{
    if text.len() > MAX_TEXT {
        return Err(ProfileError::Fault(with_total(text.len() as u64)));
    }
    match read_sections(alloc, text) {
        Ok(sections) => {
            let said = answer(alloc, sections.as_slice());
            drop(sections);
            said
        }
        Err(error) => Err(error),
    }
}

fn answer(alloc: Global, sections: &[Section]) -> Result<Profile, ProfileError>
    requires few { length sections.now ≤ MAX_TEXT }
    requires clear { AreClear sections.now }
    ensures fault { Answers result (fault_of_sections sections.now) }
    ensures profile { IfOk result (λ profile. profile ≡ plan_of sections.now) }
{
    match fault_of_sections(sections) {
        Some(fault) => Err(ProfileError::Fault(fault)),
        None => match plan(alloc, sections) {
            Ok(profile) => Ok(profile),
            Err(NoMemory) => Err(ProfileError::NoMemory),
        },
    }
}
