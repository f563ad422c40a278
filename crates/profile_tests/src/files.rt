//! Profiles from files, and files that are not read.
use crate::check::same;
use crate::shelf::OneFile;
use crate::texts::FIRST;
use profile_file::{LoadFault, load_profile};
use profile_plan::Profile;
use qos_io::{MemShelf, PutFault};
use qos_profile::{FaultKind, ProfileFault};
use std::process::Abort;

// How many ports the profile has that was loaded, or why none was.
type Loaded = Result<usize, LoadFault>;

const UNREAD: Loaded = Err(LoadFault::Unread);

const NO_MEMORY: Loaded = Err(LoadFault::NoMemory);

const MISSING: Loaded = Err(LoadFault::Fault(ProfileFault {
    line: 0,
    kind: FaultKind::Missing,
    total: 0,
}));

const OUT_OF_RANGE: Loaded = Err(LoadFault::Fault(ProfileFault {
    line: 2,
    kind: FaultKind::OutOfRange,
    total: 0,
}));

const TOO_LARGE: Loaded = Err(LoadFault::Fault(ProfileFault {
    line: 0,
    kind: FaultKind::TooLarge,
    total: 1_048_577,
}));

fn ports(loaded: Result<Profile, LoadFault>) -> Loaded {
    match loaded {
        Ok(profile) => Ok(profile.ports.as_slice().len()),
        Err(fault) => Err(fault),
    }
}

// A text, and behind it one comment that makes it a text of so many bytes at least.
fn text_of<R: Abort + AllocGlobal>(rt: &R, text: &str, size: usize) -> Vec<u8> {
    let mut bytes = Vec::from_slice(rt.alloc(), text.as_bytes()).expect(rt, "memory");
    if bytes.len() < size {
        bytes.resize(size, b';').expect(rt, "memory");
    }
    bytes
}

// The file `p` with this text is answered so.
fn loads<R: Abort + AllocGlobal>(rt: &R, text: Vec<u8>, wanted: &Loaded, note: &str) {
    let mut shelf = MemShelf::new(rt.alloc());
    shelf.put_file("p", text).expect(rt, "memory");
    let loaded = ports(load_profile(rt.alloc(), &mut shelf, "p"));
    same(rt, &loaded, wanted, note);
}

fn loads_text<R: Abort + AllocGlobal>(rt: &R, text: &str, wanted: &Loaded) {
    loads(rt, text_of(rt, text, 0), wanted, text);
}

fn loads_size<R: Abort + AllocGlobal>(rt: &R, size: usize, wanted: &Loaded, note: &str) {
    loads(rt, text_of(rt, FIRST, size), wanted, note);
}

fn is_absent<R: Abort + AllocGlobal>(rt: &R) {
    let mut shelf = MemShelf::new(rt.alloc());
    let loaded = ports(load_profile(rt.alloc(), &mut shelf, "p"));
    same(rt, &loaded, &UNREAD, "absent");
}

#[test]
fn texts_are_loaded(rt: HostRuntime) {
    loads_text(&rt, FIRST, &Ok(1));
    loads_text(&rt, "", &MISSING);
    loads_text(&rt, "[pool]\nslots = 0", &OUT_OF_RANGE);
    is_absent(&rt);
}

#[test]
fn a_text_has_its_limit(rt: HostRuntime) {
    loads_size(&rt, 1_048_576, &Ok(1), "the longest");
    loads_size(&rt, 1_048_577, &TOO_LARGE, "one byte more");
    loads_size(&rt, 3_000_000, &TOO_LARGE, "not read to its end");
}

// How the opening fails, which read fails, what the file is answered, and a note.
type Fault = (Option<PutFault>, Option<u32>, Loaded, &'static str);

static FAULTS: [Fault; 5] = [
    (None, None, Ok(1), "none"),
    (Some(PutFault::Failed), None, UNREAD, "open"),
    (Some(PutFault::NoMemory), None, NO_MEMORY, "open for memory"),
    (None, Some(0), UNREAD, "first read"),
    (None, Some(1), UNREAD, "second read"),
];

fn hands_on<R: Abort + AllocGlobal>(rt: &R, row: &Fault) {
    let (open, read, wanted, note) = row;
    let mut shelf = OneFile::new(rt.alloc(), text_of(rt, FIRST, 0), *open, *read);
    let loaded = ports(load_profile(rt.alloc(), &mut shelf, "p"));
    same(rt, &loaded, wanted, note);
}

#[test]
fn faults_are_handed_on(rt: HostRuntime) {
    for row in &FAULTS {
        hands_on(&rt, row);
    }
}
