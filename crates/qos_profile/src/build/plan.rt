//! The whole profile.
ghost use Rattle.std.specs.Prelude.{◌≡◌, ◌≤◌, IfOk, length};
ghost use Rattle.qos_profile.specs.declared.limits.TheConstants.{MAX_TEXT};
ghost use Rattle.profile_plan.specs.Profile.{KeepsLimits};
ghost use Rattle.qos_profile.specs.Fits.{FitSections};
ghost use Rattle.qos_profile.specs.Planned.{skipped_of, plan_of};

use crate::build::code::codes;
use crate::build::kind::{pipe_kinds, subport_kinds};
use crate::build::meter::meters;
use crate::build::pool::pool;
use crate::build::port::ports;
use crate::build::rule::rules;
use crate::head::{Head, is_red};
use crate::list::add;
use crate::lookup::facts_at;
use crate::section::Section;
use profile_plan::Profile;
use qos_base::{NoMemory, Sequence};
use std::alloc::Global;

fn skipped(alloc: Global, sections: &[Section]) -> Result<Sequence<u32>, NoMemory>
    ensures { IfOk result (λ lines. lines ≡ skipped_of sections.now) }
{
    let mut lines = Vec::new(alloc);
    for section in sections {
        if is_red(&section.head) {
            add(&mut lines, section.line)?;
        }
    }
    Ok(Sequence::of(lines))
}

/// The profile that sections say, which have no fault.
#[tactic(auto, unfolding(crate::specs::Planned::plan_of))]
pub(crate) fn plan(alloc: Global, sections: &[Section]) -> Result<Profile, NoMemory>
    requires count { length sections.now ≤ MAX_TEXT }
    requires limits { KeepsLimits (plan_of sections.now) }
    requires fits { FitSections sections.now }
    ensures { IfOk result (λ profile. profile ≡ plan_of sections.now) }
{
    let ports = ports(alloc, sections)?;
    let subport_kinds = subport_kinds(alloc, sections)?;
    let pipe_kinds = pipe_kinds(alloc, sections)?;
    let meters = meters(alloc, sections)?;
    let rules = rules(alloc, sections)?;
    let skipped = skipped(alloc, sections)?;
    Ok(Profile {
        pool: pool(facts_at(sections, &Head::Pool)),
        ports,
        subport_kinds,
        pipe_kinds,
        codes: codes(facts_at(sections, &Head::Codes)),
        meters,
        rules,
        skipped,
    })
}
