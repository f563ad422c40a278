//! The sections `[subport P S]`.
ghost use Rattle.std.specs.Prelude.{◌≡◌, ◌++◌, OnOk};
ghost use Rattle.std.specs.List.{flat_map};
ghost use Rattle.profile_print.specs.Written.{key_text, block_text, each};
ghost use Rattle.profile_print.specs.Text.{pipe_key, queue_keys, yes_word, subport_block, subport_blocks};

use crate::text::Text;
use crate::text::Word::{Is, Number};
use profile_plan::{PortPlan, SubportPlan};
use qos_base::NoMemory;

pub(crate) fn write_subports(text: &mut Text, ports: &[PortPlan]) -> Result<(), NoMemory>
    ensures { OnOk result (text.new ≡ text.old ++ flat_map block_text (subport_blocks 0 ports.now)) }
{
    for (number, port) in ports.iter().enumerate() {
        write_subports_of(text, number as u64, port.subports.as_slice())?;
    }
    Ok(())
}

fn write_subports_of(text: &mut Text, port: u64, subports: &[SubportPlan]) -> Result<(), NoMemory>
    ensures { OnOk result (text.new ≡ text.old ++ flat_map block_text (each (subport_block port) subports.now)) }
{
    for (number, subport) in subports.iter().enumerate() {
        write_subport(text, port, number as u64, subport)?;
    }
    Ok(())
}

#[tactic(auto, unfolding(crate::specs::Text::subport_block))]
fn write_subport(
    text: &mut Text,
    port: u64,
    number: u64,
    subport: &SubportPlan,
) -> Result<(), NoMemory>
    ensures { OnOk result (text.new ≡ text.old ++ block_text (subport_block port number subport.now)) }
{
    let pipes = subport.pipes.as_slice();
    text.head(&[Is("subport"), Number(port), Number(number)])?;
    text.number(&[Is("profile")], u64::from(subport.kind))?;
    text.number(&[Is("pipes")], pipes.len() as u64)?;
    write_queues(text, subport)?;
    Ok(())
}

// The queues of a subport, its pipes and whether it is oversubscribed.
fn write_queues(text: &mut Text, subport: &SubportPlan) -> Result<(), NoMemory>
    ensures { OnOk result (text.new ≡ text.old ++ flat_map key_text (queue_keys subport.now)) }
{
    text.numbers(&[Is("queue"), Is("sizes")], &subport.sizes)?;
    write_pipes(text, subport.pipes.as_slice())?;
    text.word("oversubscription", Is(yes_word(subport.oversub)))
}

fn yes_word(on: bool) -> &'static str
    ensures { result.now ≡ yes_word on }
{
    if on { "yes" } else { "no" }
}

fn write_pipes(text: &mut Text, kinds: &[u32]) -> Result<(), NoMemory>
    ensures { OnOk result (text.new ≡ text.old ++ flat_map key_text (each pipe_key kinds.now)) }
{
    for (pipe, kind) in kinds.iter().enumerate() {
        text.number(&[Is("pipe"), Number(pipe as u64)], u64::from(*kind))?;
    }
    Ok(())
}
