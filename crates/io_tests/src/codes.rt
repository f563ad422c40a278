//! Entries, and tables by code.
use crate::check::same;
use code_table::{CodeTable, Entry};
use qos_base::Colour;
use std::process::Abort;

const GREEN: Entry = Entry {
    class: 3,
    queue: 0,
    colour: Colour::Green,
};

const RED: Entry = Entry {
    class: 12,
    queue: 2,
    colour: Colour::Red,
};

// A class, a queue, whether they are valid, and the number of the queue among those of a pipe.
const NUMBERS: [(u8, u8, bool, u32); 7] = [
    (0, 0, true, 0),
    (11, 0, true, 11),
    (11, 1, false, 11),
    (12, 0, true, 12),
    (12, 3, true, 15),
    (12, 4, false, 16),
    (13, 0, false, 13),
];

// A code point, its class, its queue and its colour. RFC 2597, section 6, gives the twelve code points; their classes here
// are 7 to 4.
const CODE_POINTS: [(usize, u8, u8, Colour); 17] = [
    (0b001010, 7, 0, Colour::Green),
    (0b001100, 7, 0, Colour::Yellow),
    (0b001110, 7, 0, Colour::Red),
    (0b010010, 6, 0, Colour::Green),
    (0b010100, 6, 0, Colour::Yellow),
    (0b010110, 6, 0, Colour::Red),
    (0b011010, 5, 0, Colour::Green),
    (0b011100, 5, 0, Colour::Yellow),
    (0b011110, 5, 0, Colour::Red),
    (34, 4, 0, Colour::Green),
    (0b100100, 4, 0, Colour::Yellow),
    (0b100110, 4, 0, Colour::Red),
    (46, 0, 0, Colour::Green),
    (8, 12, 3, Colour::Green),
    (1, 12, 1, Colour::Green),
    (0, 12, 0, Colour::Green),
    (63, 12, 1, Colour::Green),
];

fn is_numbered(rt: &impl Abort, row: (u8, u8, bool, u32)) {
    let (class, queue, _, _) = row;
    let entry = Entry {
        class,
        queue,
        colour: Colour::Green,
    };
    let found = (class, queue, entry.is_valid(), entry.queue_number());
    same(
        rt,
        &found,
        &row,
        "a class, a queue, whether valid, a number",
    );
}

#[test]
fn entries_are_tested_and_numbered(rt: HostRuntime) {
    for row in NUMBERS {
        is_numbered(&rt, row);
    }
}

fn has<const N: usize>(rt: &impl Abort, table: &CodeTable<N>, code: usize, entry: Entry) {
    assert!(rt; code < N);
    same(
        rt,
        &(code, table.get(code)),
        &(code, entry),
        "a code and its entry",
    );
}

// A table of the 8 priorities of a VLAN tag.
#[test]
fn a_code_has_its_last_entry(rt: HostRuntime) {
    let mut table = CodeTable::<8>::filled(GREEN);
    table.set(7, GREEN);
    table.set(7, RED);
    table.set(0, RED);
    for (code, entry) in [(0, RED), (1, GREEN), (6, GREEN), (7, RED)] {
        has(&rt, &table, code, entry);
    }
}

#[test]
fn the_default_table_has_the_standard_code_points(rt: HostRuntime) {
    let table = CodeTable::<64>::default_dscp();
    for (code, class, queue, colour) in CODE_POINTS {
        let entry = Entry {
            class,
            queue,
            colour,
        };
        has(&rt, &table, code, entry);
    }
}
