//! The names of the outputs.
ghost use Rattle.std.specs.Prelude.{◌≡◌, ◌≤◌, ◌++◌, length, map, take, IfOk, string_bytes};
ghost use Rattle.qos_words.specs.Names.{output_names};

use qos_base::NoMemory;
use std::alloc::Global;

/// What stands behind the prefix in the name of each port's output.
pub(crate) const ENDINGS: [&str; 16] = [
    ".0.pcap", ".1.pcap", ".2.pcap", ".3.pcap", ".4.pcap", ".5.pcap", ".6.pcap", ".7.pcap",
    ".8.pcap", ".9.pcap", ".10.pcap", ".11.pcap", ".12.pcap", ".13.pcap", ".14.pcap", ".15.pcap",
];

/// The names of the outputs of the ports 0 to `ports` - 1, in this order: `PREFIX.PORT.pcap`.
///
/// There are 16 ports at most. `NoMemory` where memory was refused.
pub fn output_names(alloc: Global, prefix: &str, ports: usize) -> Result<Vec<String>, NoMemory>
    requires { ports ≤ 16 }
    ensures { IfOk result (λ names. map string_bytes names.items ≡ output_names prefix.now ports) }
{
    joined_with_first(alloc, prefix, &ENDINGS, ports)
}

fn joined_with_first(
    alloc: Global,
    prefix: &str,
    endings: &[&str],
    count: usize,
) -> Result<Vec<String>, NoMemory>
    requires { count ≤ length endings.now }
    ensures { IfOk result (λ names. map string_bytes names.items ≡ map (λ ending. prefix.now ++ ending.now) (take count endings.now)) }
{
    let mut names = Vec::new(alloc);
    for ending in &endings[..count] {
        names.push(joined(alloc, prefix, ending)?)?;
    }
    Ok(names)
}

fn joined(alloc: Global, prefix: &str, ending: &str) -> Result<String, NoMemory>
    ensures { IfOk result (λ name. string_bytes name ≡ prefix.now ++ ending.now) }
{
    let mut name = String::from_str(alloc, prefix)?;
    name.push_str(ending)?;
    Ok(name)
}
