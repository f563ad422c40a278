//! Tables of the meters of a profile that is read from text.
ghost use Rattle.std.specs.Prelude.{◌≡◌, ◌≤◌, length, All};
ghost use Rattle.meter_table.specs.Seats.{AreAllSeats, IsFresh, settings_of};

use meter_table::{MeterSeat, MeterTable};
use qos_profile::{Profile, read_profile};
use std::process::Abort;
use std::sync::Wait;

// One pipe, and no meter.
const ONE_PIPE: &str = "[port 0]
line rate = 1000000000
subports = 1
drain ms = 0
[subport profile 0]
tb credits = 1
tb period = 1
tb size = 2000000
tc 0-12 credits = 1000000
tc period = 1000000
[subport 0 0]
profile = 0
pipes = 1
queue sizes = 64 64 64 64 64 64 64 64 64 64 64 64 64
pipe 0 = 0
[pipe profile 0]
tb credits = 1
tb period = 1
tb size = 2000000
tc 0-12 credits = 1000000
tc period = 1000000
[rule 0]
port = 0
subport = 0
pipe = 0
code = dscp
";

/// The name, the CBS and the EBS of a blind single rate marker without a rate: what it has at first is all that it ever
/// has.
pub(crate) type Meter<'a> = (&'a str, u32, u32);

fn add_meter<R: AllocGlobal + Abort>(rt: &R, text: &mut String, meter: Meter<'_>) {
    let (name, cbs, ebs) = meter;
    let lines = format!(in rt.alloc();
        "[meter {name}]\nkind = srtcm\nmode = blind\ncir bytes = 0\ncir period = 1\ncbs = {cbs}\nebs = {ebs}\n"
    );
    text.push_str(lines.expect(rt, "memory").as_str())
        .expect(rt, "memory");
}

fn text_of<R: AllocGlobal + Abort>(rt: &R, meters: &[Meter<'_>]) -> String {
    let mut text = String::from_str(rt.alloc(), ONE_PIPE).expect(rt, "memory");
    for meter in meters {
        add_meter(rt, &mut text, *meter);
    }
    text
}

// A profile that is read from a text.
fn read<R: AllocGlobal + Abort>(rt: &R, text: &str) -> Profile {
    read_profile(rt.alloc(), text.as_bytes()).expect(rt, "a profile")
}

// A profile has so many meters.
fn has_meters(rt: &impl Abort, profile: &Profile, count: usize)
    ensures { length profile.now.meters ≡ count }
{
    assert!(rt; profile.meters.as_slice().len() == count);
}

// A profile of one pipe with these meters.
fn profile<R: AllocGlobal + Abort>(rt: &R, meters: &[Meter<'_>]) -> Profile
    ensures { length result.meters ≡ length meters.now }
{
    let text = text_of(rt, meters);
    let profile = read(rt, text.as_str());
    has_meters(rt, &profile, meters.len());
    profile
}

/// A table of these meters, and so many seats.
pub(crate) fn table_of<R: AllocGlobal + Wait + Abort>(
    rt: &R,
    meters: &[Meter<'_>],
    jobs: u32,
) -> (MeterTable, Vec<MeterSeat>)
    requires some_job { 1 ≤ jobs }
    requires jobs { jobs ≤ 48 }
    ensures meters { length (settings_of result.0) ≡ length meters.now }
    ensures seats { length result.1.items ≡ jobs }
    ensures fresh { All (IsFresh result.0) result.1.items }
    ensures all { AreAllSeats result.0 result.1.items }
{
    let p = profile(rt, meters);
    let made = MeterTable::new(rt, rt.alloc(), &p, jobs).expect(rt, "memory");
    drop(p);
    made
}
