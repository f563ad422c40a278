//! What becomes of the records of an input.
ghost use Rattle.std.specs.Prelude.{◌≡◌, ◌<◌, map};
ghost use Rattle.color_meter.specs.Setting.{setting_of};
ghost use Rattle.meter_table.specs.Seats.{IsFresh, settings_of};
ghost use Rattle.pkt_receive.specs.Marks.{IsMarking};
ghost use Rattle.pkt_receive.specs.Receiver.{IsReading};

use crate::capture::{HEADER, put_record};
use crate::check::same;
use crate::profiles::{TWO_PORTS, read};
use meter_table::{Mark, MeterSeat, MeterTable};
use pkt_receive::{Losses, Marker, Received, Receiver, open_input};
use pkt_slots::Slots;
use profile_plan::Profile;
use qos_base::{Colour, Pkt, Reason};
use qos_io::{MemShelf, Source};
use qos_pcap::{PcapFault, Stop};
use std::alloc::AllocGlobal;
use std::process::Abort;
use std::sync::Wait;

// The port and the colour of a packet, or the reason for which its record is lost, or nothing where it is not whole.
type Wanted = Option<Result<(u32, Colour), Reason>>;

// A record: its two lengths, its nanoseconds after the first, what stands behind the addresses of its frame, and what
// becomes of it in input 0, in input 1 and in input 2, whose IPv4 has a meter.
struct Row {
    note: &'static str,
    cap: u32,
    wire: u32,
    after: u16,
    kind: [u8; 7],
    wanted: [Wanted; 3],
}

const IPV4: [u8; 7] = [0x08, 0x00, 0x45, 0, 0, 0, 0];

const TAGGED: [u8; 7] = [0x81, 0x00, 0x00, 0x05, 0x08, 0x00, 0x45];

const VERSION_5: [u8; 7] = [0x08, 0x00, 0x55, 0, 0, 0, 0];

const ARP: [u8; 7] = [0x08, 0x06, 0, 0, 0, 0, 0];

const TO_0: Wanted = Some(Ok((0, Colour::Green)));

const TO_1: Wanted = Some(Ok((1, Colour::Green)));

const YELLOW: Wanted = Some(Ok((1, Colour::Yellow)));

const UNPARSED: Wanted = Some(Err(Reason::Unparsed));

const UNMATCHED: Wanted = Some(Err(Reason::Unmatched));

const OVERSIZE: Wanted = Some(Err(Reason::Oversize));

const TOO_LONG: Wanted = Some(Err(Reason::TooLong));

const POLICED: Wanted = Some(Err(Reason::Policed));

// The ports send frames of 1,522 and of 1,523 bytes, and a slot holds 2,048. The meter holds 46 bytes for green packets
// and 46 for yellow ones and earns none, and the profile drops red ones.
static ROWS: [Row; 12] = [
    Row {
        note: "a frame",
        cap: 60,
        wire: 60,
        after: 0,
        kind: IPV4,
        wanted: [TO_0, TO_1, TO_1],
    },
    Row {
        note: "one byte more than a slot",
        cap: 2049,
        wire: 2049,
        after: 100,
        kind: IPV4,
        wanted: [TOO_LONG; 3],
    },
    Row {
        note: "a whole slot",
        cap: 2048,
        wire: 2048,
        after: 200,
        kind: IPV4,
        wanted: [OVERSIZE; 3],
    },
    // The slot still holds the frame before it.
    Row {
        note: "10 bytes",
        cap: 10,
        wire: 60,
        after: 300,
        kind: IPV4,
        wanted: [UNPARSED; 3],
    },
    Row {
        note: "ARP",
        cap: 60,
        wire: 60,
        after: 400,
        kind: ARP,
        wanted: [UNMATCHED; 3],
    },
    Row {
        note: "ARP, longer than any port sends",
        cap: 60,
        wire: 1524,
        after: 500,
        kind: ARP,
        wanted: [UNMATCHED; 3],
    },
    Row {
        note: "1,523 bytes on the line",
        cap: 60,
        wire: 1523,
        after: 600,
        kind: IPV4,
        wanted: [OVERSIZE, TO_1, POLICED],
    },
    Row {
        note: "1,522 bytes on the line",
        cap: 60,
        wire: 1522,
        after: 700,
        kind: IPV4,
        wanted: [TO_0, TO_1, POLICED],
    },
    Row {
        note: "one byte more than a slot, and no frame",
        cap: 2049,
        wire: 2049,
        after: 800,
        kind: VERSION_5,
        wanted: [TOO_LONG; 3],
    },
    Row {
        note: "46 bytes behind a tag",
        cap: 60,
        wire: 64,
        after: 900,
        kind: TAGGED,
        wanted: [TO_0, TO_1, YELLOW],
    },
    Row {
        note: "a frame for which the meter holds nothing",
        cap: 60,
        wire: 60,
        after: 1000,
        kind: IPV4,
        wanted: [TO_0, TO_1, POLICED],
    },
    Row {
        note: "a body of which a byte is missing",
        cap: 60,
        wire: 60,
        after: 1100,
        kind: IPV4,
        wanted: [None; 3],
    },
];

const FIRST_MARK: Mark = Mark {
    meter: 0,
    turn: 0,
    input: 2,
    index: 0,
    at: 0,
    len: 46,
    pre: Colour::Green,
    colour: Colour::Green,
};

// The marks of input 2. Lengths are without the link header's 14 bytes and the tag's 4.
const MARKS: [Mark; 5] = [
    FIRST_MARK,
    Mark {
        turn: 1,
        index: 6,
        at: 600,
        len: 1509,
        colour: Colour::Red,
        ..FIRST_MARK
    },
    Mark {
        turn: 2,
        index: 7,
        at: 700,
        len: 1508,
        colour: Colour::Red,
        ..FIRST_MARK
    },
    Mark {
        turn: 3,
        index: 9,
        at: 900,
        colour: Colour::Yellow,
        ..FIRST_MARK
    },
    Mark {
        turn: 4,
        index: 10,
        at: 1000,
        colour: Colour::Red,
        ..FIRST_MARK
    },
];

// What is captured of a row: two addresses of twos, what stands behind them, and zeros.
fn body<R: Abort + AllocGlobal>(rt: &R, row: &Row) -> Vec<u8> {
    let mut begins = [2; 19];
    begins[12..].copy_from_slice(&row.kind);
    let mut bytes = vec![in rt.alloc(); 0; row.cap as usize].expect(rt, "memory");
    let n = begins.len().min(bytes.len());
    bytes[..n].copy_from_slice(&begins[..n]);
    bytes
}

// The first record comes one second and 500 nanoseconds after 1970 began.
fn put_row<R: Abort + AllocGlobal>(rt: &R, bytes: &mut Vec<u8>, row: &Row) {
    let head = [1, 500 + u32::from(row.after), row.cap, row.wire];
    put_record(rt, bytes, head, &body(rt, row));
}

// A capture of the rows, but for its last byte.
fn capture<R: Abort + AllocGlobal>(rt: &R) -> Vec<u8> {
    let mut bytes = HEADER.to_vec(rt.alloc()).expect(rt, "memory");
    for row in &ROWS {
        put_row(rt, &mut bytes, row);
    }
    bytes.pop();
    bytes
}

// A shelf with that capture.
fn shelf<R: Abort + AllocGlobal>(rt: &R) -> MemShelf {
    let mut shelf = MemShelf::new(rt.alloc());
    shelf.put_file("rows", capture(rt)).expect(rt, "memory");
    shelf
}

// The packet of a row, at a port with a colour.
fn packet(input: u32, index: u32, port: u32, colour: Colour, row: &Row) -> Pkt {
    Pkt {
        input,
        index,
        wire: row.wire,
        cap: row.cap,
        stamp: 1_000_000_500 + u64::from(row.after),
        port,
        subport: 0,
        pipe: 0,
        queue: 12,
        colour,
    }
}

// What was received of a row; the slot of a packet is given back.
fn seen<R: Abort + AllocGlobal>(
    rt: &R,
    received: Received,
    slots: &mut Slots,
    row: &Row,
) -> Option<Result<Pkt, Reason>>
    ensures { slots.new.slot_bytes ≡ slots.old.slot_bytes }
{
    match received {
        Received::Admitted(mbuf) => {
            same(rt, &mbuf.frame(), &body(rt, row).as_slice(), row.note);
            let pkt = mbuf.pkt;
            slots.give(mbuf);
            Some(Ok(pkt))
        }
        Received::Lost(reason) => Some(Err(reason)),
        Received::Stopped => None,
    }
}

fn wanted(input: u32, index: u32, row: &Row) -> Option<Result<Pkt, Reason>> {
    let of_input = match input {
        0 => row.wanted[0],
        1 => row.wanted[1],
        _ => row.wanted[2],
    };
    of_input.map(|fate| fate.map(|(port, colour)| packet(input, index, port, colour, row)))
}

fn row_at(index: u32) -> &'static Row
    requires { index < 12 }
{
    &ROWS[index as usize]
}

// Compares what was received of the row of an index.
fn compare<R: Abort + AllocGlobal>(
    rt: &R,
    received: Received,
    slots: &mut Slots,
    input: u32,
    index: u32,
)
    requires index { index < 12 }
    ensures { slots.new.slot_bytes ≡ slots.old.slot_bytes }
{
    let row = row_at(index);
    let found = seen(rt, received, slots, row);
    same(rt, &found, &wanted(input, index, row), row.note);
}

fn receive<R: Abort + AllocGlobal + Wait, S: Source>(
    rt: &R,
    p: &Profile,
    rx: &mut Receiver<S>,
    slots: &mut Slots,
    marker: &mut Marker<'_>,
    index: u32,
)
    requires index { index < 12 }
    requires reading { IsReading S.Source rx.old }
    requires slots { slots.old.slot_bytes ≡ p.now.pool.slot_bytes }
    requires marking { IsMarking p.now rx.old.read marker.old }
    ensures reading { IsReading S.Source rx.new }
    ensures slots { slots.new.slot_bytes ≡ slots.old.slot_bytes }
    ensures marking { IsMarking p.now rx.new.read marker.new }
{
    let input = rx.input;
    let received = rx.turn(rt, p, slots, marker).expect(rt, "memory");
    compare(rt, received, slots, input, index);
}

// The meters of a profile, and their only seat.
fn meters<R: Abort + AllocGlobal + Wait>(rt: &R, p: &Profile) -> (MeterTable, MeterSeat)
    ensures settings { settings_of result.0 ≡ map setting_of p.now.meters }
    ensures fresh { IsFresh result.0 result.1 }
{
    let (table, mut seats) = MeterTable::new(rt, rt.alloc(), p, 1).expect(rt, "memory");
    let seat = seats.pop().expect(rt, "a seat");
    (table, seat)
}

fn receive_each<R: Abort + AllocGlobal + Wait, S: Source>(
    rt: &R,
    p: &Profile,
    rx: &mut Receiver<S>,
    slots: &mut Slots,
    marker: &mut Marker<'_>,
)
    requires reading { IsReading S.Source rx.old }
    requires slots { slots.old.slot_bytes ≡ p.now.pool.slot_bytes }
    requires marking { IsMarking p.now rx.old.read marker.old }
{
    for index in 0..12u32 {
        receive(rt, p, rx, slots, marker, index);
    }
}

fn receive_rows<R: Abort + AllocGlobal + Wait, S: Source>(
    rt: &R,
    p: &Profile,
    rx: &mut Receiver<S>,
    marks: &[Mark],
)
    requires { IsReading S.Source rx.old }
{
    let mut slots = Slots::new(rt.alloc(), p.pool.slot_bytes);
    let (table, seat) = meters(rt, p);
    let mut marker = Marker::new(rt.alloc(), &table, seat, rx.origin);
    receive_each(rt, p, rx, &mut slots, &mut marker);
    same(rt, &marker.marks.as_slice(), &marks, "the marks");
    drop(marker);
    drop(table);
    drop(slots);
}

// An input of the rows, of which so many are too long for their port and so many are policed. The last record begins
// behind the header, eleven heads of 16 bytes and 6,576 bytes of bodies.
fn receive_input<R: Abort + AllocGlobal + Wait>(
    rt: &R,
    p: &Profile,
    input: u32,
    oversize: u64,
    policed: u64,
    marks: &[Mark],
) {
    let mut rx = open_input(&mut shelf(rt), "rows", input).expect(rt, "memory");
    receive_rows(rt, p, &mut rx, marks);
    let losses = Losses {
        unparsed: 1,
        unmatched: 2,
        oversize,
        too_long: 2,
        policed,
    };
    let stop = Stop::Fault(PcapFault::CutRecord(6776));
    same(
        rt,
        &(rx.origin, rx.read, rx.losses, rx.stopped),
        &(1_000_000_500, 11, losses, stop),
        "an input",
    );
    drop(rx);
}

#[test]
fn each_record_has_its_fate(rt: HostRuntime) {
    let p = read(&rt, TWO_PORTS);
    receive_input(&rt, &p, 0, 2, 0, &[]);
    receive_input(&rt, &p, 1, 1, 0, &[]);
    receive_input(&rt, &p, 2, 1, 3, &MARKS);
    drop(p);
}

#[test]
fn an_absent_file_is_not_opened(rt: HostRuntime) {
    let rx = open_input(&mut shelf(&rt), "none", 0).expect(&rt, "memory");
    same(
        &rt,
        &(rx.origin, rx.head, rx.stopped),
        &(0, None, Stop::NotOpened),
        "an absent file",
    );
    drop(rx);
}
