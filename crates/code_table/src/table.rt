//! A table with one entry for each code.
ghost use Rattle.std.specs.Prelude.{◌≡◌, ◌<◌, length, replicate, slice_get, slice_set, Some};
ghost use Rattle.code_table.specs.Entry.{IsValid};
ghost use Rattle.code_table.specs.Dscp.{default_table};

use crate::Entry;
use crate::dscp::*;
use qos_base::Colour;
use std::marker::Model;

/// An entry for each code below `N`, all of them valid.
#[derive(Clone, Copy, Debug, PartialEq, Eq)]
pub struct CodeTable<const N: usize> {
    entries: [Entry; N],
}

// Contracts see the list of the entries, by code.
impl<const N: usize> Model for CodeTable<N> {
    ghost use Rattle.std.specs.Prelude.{◌≡◌, List, length, All};
    ghost use Rattle.code_table.specs.declared.entry.Entry.{Entry};
    ghost use Rattle.code_table.specs.Entry.{IsValid};

    ghost Value = { List Entry };

    ghost view = { λ t. t.entries };

    ghost invariant = { λ t. (length t.entries ≡ N) × All IsValid t.entries };

    ghost inverse = { λ entries. record { entries = entries } };
}

impl<const N: usize> CodeTable<N> {
    /// A table with this entry for every code.
    pub fn filled(entry: Entry) -> CodeTable<N>
        requires { IsValid entry }
        ensures { result ≡ replicate N entry }
    {
        CodeTable {
            entries: [entry; N],
        }
    }

    /// Sets the entry of one code. The other codes keep theirs.
    pub fn set(&mut self, code: usize, entry: Entry)
        requires code { code < N }
        requires entry { IsValid entry }
        ensures { self.new ≡ slice_set self.old code entry }
    {
        self.entries[code] = entry;
    }

    /// The entry of a code: the last that was set for it, or else the one that the table was filled with.
    pub fn get(&self, code: usize) -> Entry
        requires { code < N }
        ensures value { slice_get self.now code ≡ Some result }
        ensures valid { IsValid result }
        ensures len { length self.now ≡ N }
    {
        self.entries[code]
    }
}

// Sets the entries of a table that is written as a table: code points, class, queue, colour.
macro_rules! set_rows {
    ($table:ident; $($($code:ident),+ => $class:literal $queue:literal $colour:ident;)+) => {
        $($($table.set($code, Entry { class: $class, queue: $queue, colour: Colour::$colour });)+)+
    };
}

impl CodeTable<64> {
    /// The default table of the Differentiated Services code points, which an IP header carries in six bits.
    pub fn default_dscp() -> CodeTable<64>
        ensures { result ≡ default_table }
    {
        let mut table = CodeTable::filled(Entry {
            class: 12,
            queue: 1,
            colour: Colour::Green,
        });
        set_rows! {
            table;
            EF => 0 0 Green;
            CS6, CS7 => 1 0 Green;
            CS5 => 2 0 Green;
            CS4 => 3 0 Green;
            AF41 => 4 0 Green;
            AF42 => 4 0 Yellow;
            AF43 => 4 0 Red;
            AF31 => 5 0 Green;
            AF32 => 5 0 Yellow;
            AF33 => 5 0 Red;
            AF21 => 6 0 Green;
            AF22 => 6 0 Yellow;
            AF23 => 6 0 Red;
            AF11 => 7 0 Green;
            AF12 => 7 0 Yellow;
            AF13 => 7 0 Red;
            CS3 => 8 0 Green;
            CS2 => 9 0 Green;
            CS0 => 12 0 Green;
            CS1 => 12 3 Green;
        }
        table
    }
}
