//! The sections `[pool]` and `[port N]`.
ghost use Rattle.std.specs.Prelude.{◌≡◌, ◌++◌, OnOk};
ghost use Rattle.std.specs.List.{flat_map};
ghost use Rattle.profile_print.specs.Written.{key_text, block_text, each};
ghost use Rattle.profile_print.specs.Text.{pool_block, size_keys, port_block, drain_key};

use crate::text::Text;
use crate::text::Word::{Is, Number};
use profile_plan::{PoolPlan, PortPlan, Span};
use qos_base::NoMemory;

#[tactic(auto, unfolding(crate::specs::Text::pool_block))]
pub(crate) fn write_pool(text: &mut Text, pool: &PoolPlan) -> Result<(), NoMemory>
    ensures { OnOk result (text.new ≡ text.old ++ block_text (pool_block pool.now)) }
{
    text.head(&[Is("pool")])?;
    text.number(&[Is("slots")], u64::from(pool.slots))?;
    text.number(&[Is("slot"), Is("bytes")], u64::from(pool.slot_bytes))?;
    text.number(&[Is("ring"), Is("size")], u64::from(pool.ring))
}

pub(crate) fn write_ports(text: &mut Text, ports: &[PortPlan]) -> Result<(), NoMemory>
    ensures { OnOk result (text.new ≡ text.old ++ flat_map block_text (each port_block ports.now)) }
{
    for (number, port) in ports.iter().enumerate() {
        write_port(text, number as u64, port)?;
    }
    Ok(())
}

#[tactic(auto, unfolding(crate::specs::Text::port_block))]
fn write_port(text: &mut Text, number: u64, port: &PortPlan) -> Result<(), NoMemory>
    ensures { OnOk result (text.new ≡ text.old ++ block_text (port_block number port.now)) }
{
    let subports = port.subports.as_slice().len() as u64;
    text.head(&[Is("port"), Number(number)])?;
    text.number(&[Is("line"), Is("rate")], port.line)?;
    text.number(&[Is("subports")], subports)?;
    write_sizes(text, port)?;
    write_drain(text, port.drain)?;
    Ok(())
}

// Its overhead and sizes.
fn write_sizes(text: &mut Text, port: &PortPlan) -> Result<(), NoMemory>
    ensures { OnOk result (text.new ≡ text.old ++ flat_map key_text (size_keys port.now)) }
{
    text.number(&[Is("frame"), Is("overhead")], u64::from(port.overhead))?;
    text.number(&[Is("mtu")], u64::from(port.mtu))?;
    text.number(&[Is("burst")], u64::from(port.burst))?;
    text.number(&[Is("quantum")], port.quantum)?;
    Ok(())
}

fn write_drain(text: &mut Text, drain: Span) -> Result<(), NoMemory>
    ensures { OnOk result (text.new ≡ text.old ++ key_text (drain_key drain)) }
{
    match drain {
        Span::Bytes(n) => text.number(&[Is("drain")], n),
        Span::Ms(n) => text.number(&[Is("drain"), Is("ms")], n),
    }
}
