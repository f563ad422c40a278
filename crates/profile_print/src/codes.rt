//! The section `[codes dscp]`.
ghost use Rattle.std.specs.Prelude.{◌≡◌, ◌++◌, length, map, OnOk};
ghost use Rattle.std.specs.List.{flat_map};
ghost use Rattle.profile_print.specs.Written.{key_text, block_text};
ghost use Rattle.profile_print.specs.Text.{code_key, codes_block, entry_words, colour_word};
ghost use Rattle.profile_print.specs.View.{word_of};

use crate::text::Text;
use crate::text::Word::{self, Is, Number};
use code_table::{CodeTable, Entry};
use qos_base::{Colour, NoMemory};

/// How many code points there are.
const CODES: usize = 64;

#[tactic(auto, unfolding(crate::specs::Text::codes_block))]
pub(crate) fn write_codes(text: &mut Text, table: &CodeTable<64>) -> Result<(), NoMemory>
    requires { length table.now ≡ 64 }
    ensures { OnOk result (text.new ≡ text.old ++ block_text (codes_block table.now)) }
{
    text.head(&[Is("codes"), Is("dscp")])?;
    for code in 0..CODES {
        write_code(text, code as u64, table.get(code))?;
    }
    Ok(())
}

fn write_code(text: &mut Text, code: u64, entry: Entry) -> Result<(), NoMemory>
    ensures { OnOk result (text.new ≡ text.old ++ key_text (code_key code entry)) }
{
    let [class, queue, colour] = entry_words(entry);
    text.entry(&[Number(code)], &[class, queue, colour])
}

/// The words `C Q COLOUR` of an entry.
pub(crate) fn entry_words(entry: Entry) -> [Word<'static>; 3]
    ensures { map word_of result ≡ entry_words entry }
{
    [
        Number(u64::from(entry.class)),
        Number(u64::from(entry.queue)),
        Is(colour_word(entry.colour)),
    ]
}

fn colour_word(colour: Colour) -> &'static str
    ensures { result.now ≡ colour_word colour }
{
    match colour {
        Colour::Green => "green",
        Colour::Yellow => "yellow",
        Colour::Red => "red",
    }
}
