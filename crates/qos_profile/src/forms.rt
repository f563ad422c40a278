//! What the types of a profile's parts say: how long arrays are, and how large integers.
//!
//! Contracts see a profile's arrays as lists and its integers as numbers. What their types say is known of
//! each part once it is read.
ghost use Rattle.std.specs.Prelude.{◌≡◌, length, All};
ghost use Rattle.qos_profile.specs.Forms.{HasClasses, HasSizes, HasWeights, HasActions, HasAddresses, KeepsForms};

use profile_plan::{
    CLASSES, MeterPlan, PipeKind, PortPlan, Profile, RulePlan, Shaping, SubportPlan,
};

/// The arrays and integers of a profile are those of its types.
pub(crate) fn forms(p: &Profile)
    ensures { KeepsForms p.now }
{
    ports(p.ports.as_slice());
    subport_kinds(p.subport_kinds.as_slice());
    pipe_kinds(p.pipe_kinds.as_slice());
    meters(p.meters.as_slice());
    rules(p.rules.as_slice());
}

fn ports(ports: &[PortPlan])
    ensures { All HasSizes ports.now }
{
    for port in ports {
        subports(port.subports.as_slice());
    }
}

fn subports(subports: &[SubportPlan])
    ensures { All (λ s. length s.sizes ≡ 13) subports.now }
{
    for subport in subports {
        sizes(&subport.sizes);
    }
}

fn sizes(sizes: &[u32; CLASSES])
    ensures { length sizes.now ≡ 13 }
{
    let _ = sizes;
}

fn subport_kinds(kinds: &[(u32, Shaping)])
    ensures { All (λ k. HasClasses k.1) kinds.now }
{
    for kind in kinds {
        shaping(kind.1);
    }
}

fn shaping(shaping: Shaping)
    ensures { HasClasses shaping }
{
    match shaping {
        Shaping::Whole(whole) => {
            let _credits = whole.tc_credits;
        }
        Shaping::Rate(rates) => {
            let _rates = rates.tc_rates;
        }
    }
}

fn pipe_kinds(kinds: &[PipeKind])
    ensures { All HasWeights kinds.now }
{
    for kind in kinds {
        pipe_kind(*kind);
    }
}

fn pipe_kind(kind: PipeKind)
    ensures { HasWeights kind }
{
    shaping(kind.shaping);
}

fn meters(meters: &[MeterPlan])
    ensures { All HasActions meters.now }
{
    for meter in meters {
        actions(&meter.drops);
    }
}

fn actions(drops: &[bool; 3])
    ensures { length drops.now ≡ 3 }
{
    let _ = drops;
}

fn rules(rules: &[RulePlan])
    ensures { All HasAddresses rules.now }
{
    for rule in rules {
        addresses(*rule);
    }
}

fn addresses(rule: RulePlan)
    ensures { HasAddresses rule }
{
    let _ends = (rule.src, rule.dst);
}
