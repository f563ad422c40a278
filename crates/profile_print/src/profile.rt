//! The text of a profile.
ghost use Rattle.std.specs.Prelude.{◌≡◌, ◌++◌, IfOk, OnOk};
ghost use Rattle.profile_print.specs.Text.{text_of};

use crate::codes::write_codes;
use crate::meter::write_meters;
use crate::port::{write_pool, write_ports};
use crate::rule::write_rules;
use crate::shaping::{write_pipe_kinds, write_subport_kinds};
use crate::subport::write_subports;
use crate::text::Text;
use profile_plan::Profile;
use qos_base::NoMemory;
use std::alloc::Global;

/// The canonical text of a profile: every section and every key in the order of the manual, sections of one
/// kind by number, classes and pipes one a line, and all 64 code points. It does not say which sections were
/// skipped.
pub fn profile_text(alloc: Global, p: &Profile) -> Result<Vec<u8>, NoMemory>
    ensures { IfOk result (λ text. text.items ≡ text_of p.now) }
{
    let mut text = Text::new(alloc);
    write_profile(&mut text, p)?;
    Ok(text.into_bytes())
}

// All sections.
fn write_profile(text: &mut Text, p: &Profile) -> Result<(), NoMemory>
    ensures { OnOk result (text.new ≡ text.old ++ text_of p.now) }
{
    p.limits();
    let ports = p.ports.as_slice();
    let meters = p.meters.as_slice();
    write_pool(text, &p.pool)?;
    write_ports(text, ports)?;
    write_subport_kinds(text, p.subport_kinds.as_slice())?;
    write_pipe_kinds(text, p.pipe_kinds.as_slice())?;
    write_subports(text, ports)?;
    write_codes(text, &p.codes)?;
    write_meters(text, meters)?;
    write_rules(text, meters, p.rules.as_slice())
}
