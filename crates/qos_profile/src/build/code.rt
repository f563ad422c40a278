//! The entries of the code points.
ghost use Rattle.std.specs.Prelude.{◌≡◌};
ghost use Rattle.qos_profile.specs.Fits.{FitCodes};
ghost use Rattle.qos_profile.specs.Planned.{entry_or, codes_of};

use crate::fact::Fact;
use crate::lookup::value_at;
use crate::value::Value;
use code_table::{CodeTable, Entry};

fn entry_or(other: Entry, value: Option<Value>) -> Entry
    ensures { result ≡ entry_or other value }
{
    match value {
        Some(Value::Entry(entry)) => entry,
        _ => other,
    }
}

/// The default table with the entries that a section gives.
#[tactic(auto, unfolding(crate::specs::Planned::codes_of))]
pub(crate) fn codes(facts: &[Fact]) -> CodeTable<64>
    requires { FitCodes facts.now }
    ensures { result ≡ codes_of facts.now }
{
    let mut table = CodeTable::default_dscp();
    for code in 0..64 {
        let entry = entry_or(table.get(code), value_at(facts, 0, code as u64));
        table.set(code, entry);
    }
    table
}
