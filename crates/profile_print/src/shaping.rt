//! The sections `[subport profile N]` and `[pipe profile N]`.
ghost use Rattle.std.specs.Prelude.{◌≡◌, ◌∷◌, [], ◌++◌, codes, map, OnOk};
ghost use Rattle.std.specs.Fmt.{decimal};
ghost use Rattle.std.specs.List.{flat_map};
ghost use Rattle.profile_lines.specs.Lines.{Entry};
ghost use Rattle.profile_print.specs.Written.{line_text, key_text, block_text, each};
ghost use Rattle.profile_print.specs.Text.{class_key, whole_keys, rate_keys, shaping_keys, subport_kind_block, pipe_kind_block};

use crate::text::Text;
use crate::text::Word::{Is, Number};
use profile_plan::{PipeKind, Rates, Shaping, Whole};
use qos_base::NoMemory;

pub(crate) fn write_subport_kinds(text: &mut Text, kinds: &[(u32, Shaping)]) -> Result<(), NoMemory>
    ensures { OnOk result (text.new ≡ text.old ++ flat_map block_text (map subport_kind_block kinds.now)) }
{
    for kind in kinds {
        write_subport_kind(text, kind)?;
    }
    Ok(())
}

#[tactic(auto, unfolding(crate::specs::Text::subport_kind_block))]
fn write_subport_kind(text: &mut Text, kind: &(u32, Shaping)) -> Result<(), NoMemory>
    ensures { OnOk result (text.new ≡ text.old ++ block_text (subport_kind_block kind.now)) }
{
    text.head(&[Is("subport"), Is("profile"), Number(u64::from(kind.0))])?;
    write_shaping(text, &kind.1)
}

pub(crate) fn write_pipe_kinds(text: &mut Text, kinds: &[PipeKind]) -> Result<(), NoMemory>
    ensures { OnOk result (text.new ≡ text.old ++ flat_map block_text (map pipe_kind_block kinds.now)) }
{
    for kind in kinds {
        write_pipe_kind(text, kind)?;
    }
    Ok(())
}

#[tactic(auto, unfolding(crate::specs::Text::pipe_kind_block))]
fn write_pipe_kind(text: &mut Text, kind: &PipeKind) -> Result<(), NoMemory>
    ensures { OnOk result (text.new ≡ text.old ++ block_text (pipe_kind_block kind.now)) }
{
    text.head(&[Is("pipe"), Is("profile"), Number(u64::from(kind.number))])?;
    write_shaping(text, &kind.shaping)?;
    write_weights(text, &kind.weights)?;
    let key = [Is("tc"), Is("12"), Is("oversubscription"), Is("weight")];
    text.number(&key, u64::from(kind.ov_weight))?;
    Ok(())
}

fn write_weights(text: &mut Text, weights: &[u8; 4]) -> Result<(), NoMemory>
    ensures { OnOk result (text.new ≡ text.old ++ line_text (Entry (codes "tc" ∷ codes "12" ∷ codes "wrr" ∷ codes "weights" ∷ []) (map decimal weights.now))) }
{
    let [a, b, c, d] = *weights;
    let numbers = [u32::from(a), u32::from(b), u32::from(c), u32::from(d)];
    text.numbers(&[Is("tc"), Is("12"), Is("wrr"), Is("weights")], &numbers)
}

fn write_shaping(text: &mut Text, shaping: &Shaping) -> Result<(), NoMemory>
    ensures { OnOk result (text.new ≡ text.old ++ flat_map key_text (shaping_keys shaping.now)) }
{
    match shaping {
        Shaping::Whole(whole) => write_whole(text, whole),
        Shaping::Rate(rates) => write_rates(text, rates),
    }
}

#[tactic(auto, unfolding(crate::specs::Text::whole_keys))]
fn write_whole(text: &mut Text, whole: &Whole) -> Result<(), NoMemory>
    ensures { OnOk result (text.new ≡ text.old ++ flat_map key_text (whole_keys whole.now)) }
{
    text.number(&[Is("tb"), Is("credits")], whole.tb_credits)?;
    text.number(&[Is("tb"), Is("period")], whole.tb_period)?;
    text.number(&[Is("tb"), Is("size")], whole.tb_size)?;
    write_classes(text, "credits", &whole.tc_credits)?;
    text.number(&[Is("tc"), Is("period")], whole.tc_period)
}

#[tactic(auto, unfolding(crate::specs::Text::rate_keys))]
fn write_rates(text: &mut Text, rates: &Rates) -> Result<(), NoMemory>
    ensures { OnOk result (text.new ≡ text.old ++ flat_map key_text (rate_keys rates.now)) }
{
    text.number(&[Is("tb"), Is("rate")], rates.tb_rate)?;
    text.number(&[Is("tb"), Is("size")], rates.tb_size)?;
    write_classes(text, "rate", &rates.tc_rates)?;
    text.number(&[Is("tc"), Is("period")], rates.tc_period_ms)
}

fn write_classes(text: &mut Text, what: &str, numbers: &[u64]) -> Result<(), NoMemory>
    ensures { OnOk result (text.new ≡ text.old ++ flat_map key_text (each (class_key what.now) numbers.now)) }
{
    for (class, number) in numbers.iter().enumerate() {
        text.number(&[Is("tc"), Number(class as u64), Is(what)], *number)?;
    }
    Ok(())
}
