//! Commands that are refused before anything is created.
use crate::check::{NONE, Row, check, check_on, ends_as, put_input, same, words};
use crate::input::Input;
use crate::profiles::{CODE, METERED, PIPE, PIPES, QUEUES, profile_of_size};
use command_fixtures::{EMPTY, End};
use qos_io::{MemShelf, WholeShelf};
use qos_main::{FaultKind, Note, ProfileFault};

// Nothing is scheduled.
const UNSCHEDULED: End = End { count: 0, ..EMPTY };

const USAGE: Row<'static> = Row {
    end: End {
        status: 2,
        ..UNSCHEDULED
    },
    report: Some("usage\nstatus 2\n"),
    ..NONE
};

// A line without a blank is one word: the first one here is empty.
static WORDLESS: [Row<'static>; 5] = [
    Row {
        note: "an empty word",
        words: "",
        ..USAGE
    },
    Row {
        note: "no number of cores",
        words: "run --cores 0 --profile p --out o a",
        ..USAGE
    },
    Row {
        note: "help",
        words: "run --help",
        ..USAGE
    },
    Row {
        note: "two outputs",
        words: "run --profile p --out o --out o a.pcap",
        ..USAGE
    },
    Row {
        note: "an input of an output's name",
        words: "run --profile p --out o o.3.pcap",
        ..USAGE
    },
];

#[test]
fn words_that_ask_for_nothing(rt: HostRuntime) {
    for row in &WORDLESS {
        check(&rt, row);
    }
}

static WITHOUT: Row<'static> = Row {
    note: "no words",
    ..USAGE
};

#[test]
fn no_words(rt: HostRuntime) {
    ends_as(&rt, &[], &mut MemShelf::new(rt.alloc()), &WITHOUT);
}

// The profile has a fault.
const FAULTY: End = End {
    status: 3,
    ..UNSCHEDULED
};

// A profile that has no pipes.
const NO_PIPES: Row<'static> = Row {
    edits: &[(PIPES, "pipes = 0")],
    end: End {
        note: Note::Profile(ProfileFault {
            line: 13,
            kind: FaultKind::OutOfRange,
            total: 0,
        }),
        ..FAULTY
    },
    report: Some("profile line 13 fault 5\nstatus 3\n"),
    ..NONE
};

const UNKNOWN_KEY: Row<'static> = Row {
    end: End {
        note: Note::Profile(ProfileFault {
            line: 2,
            kind: FaultKind::UnknownKey,
            total: 0,
        }),
        ..FAULTY
    },
    report: Some("profile line 2 fault 3\nstatus 3\n"),
    ..NONE
};

static REFUSALS: [Row<'static>; 6] = [
    // 13 sizes of 65, of which the last is that of four queues, and 4,096 pipes: 4,259,840 places, above 4,194,304.
    Row {
        note: "too many places",
        edits: &[
            (PIPES, "pipes = 4096"),
            (
                QUEUES,
                "queue sizes = 65 65 65 65 65 65 65 65 65 65 65 65 65",
            ),
            (PIPE, "pipe 0-4095 = 0"),
        ],
        end: End {
            note: Note::Profile(ProfileFault {
                line: 0,
                kind: FaultKind::TooLarge,
                total: 4_259_840,
            }),
            ..FAULTY
        },
        report: Some("profile line 0 fault 9\nstatus 3\n"),
        ..NONE
    },
    Row {
        note: "an unknown key",
        edits: &[(2, "line rat = 5")],
        ..UNKNOWN_KEY
    },
    Row {
        note: "a profile of two lines",
        text: Some(b"[port 0]\nline rat = 5"),
        ..UNKNOWN_KEY
    },
    Row {
        note: "a meter in use, and a fault",
        edits: &[METERED, (PIPES, "pipes = 0")],
        ..NO_PIPES
    },
    Row {
        note: "a meter that is not there",
        edits: &[(CODE, "code = dscp\nmeter = q")],
        end: End {
            note: Note::Profile(ProfileFault {
                line: 27,
                kind: FaultKind::NoSuchName,
                total: 0,
            }),
            ..FAULTY
        },
        report: Some("profile line 27 fault 8\nstatus 3\n"),
        ..NONE
    },
    // A profile that is refused ends the command before a missing capture is noticed.
    Row {
        note: "no capture",
        input: Input::Absent,
        ..NO_PIPES
    },
];

#[test]
fn profiles_are_refused(rt: HostRuntime) {
    for row in &REFUSALS {
        check(&rt, row);
    }
}

#[test]
fn the_longest_profile(rt: HostRuntime) {
    let text = profile_of_size(&rt, 1_048_576);
    let row = Row {
        note: "1,048,576 bytes",
        text: Some(&text),
        ..NONE
    };
    check(&rt, &row);
}

#[test]
fn a_profile_that_is_too_long(rt: HostRuntime) {
    let text = profile_of_size(&rt, 1_048_577);
    let row = Row {
        note: "1,048,577 bytes",
        text: Some(&text),
        end: End {
            note: Note::Profile(ProfileFault {
                line: 0,
                kind: FaultKind::TooLarge,
                total: 1_048_577,
            }),
            ..FAULTY
        },
        report: Some("profile line 0 fault 9\nstatus 3\n"),
        ..NONE
    };
    check(&rt, &row);
}

const NO_PROFILE: Row<'static> = Row {
    end: End {
        status: 4,
        note: Note::ProfileRead,
        ..UNSCHEDULED
    },
    report: Some("profile read fault\nstatus 4\n"),
    ..NONE
};

static UNREAD: [Row<'static>; 2] = [
    Row {
        note: "neither is there",
        input: Input::Absent,
        ..NO_PROFILE
    },
    Row {
        note: "no profile",
        ..NO_PROFILE
    },
];

// A missing profile ends the command, whether the capture is there or not.
#[test]
fn profiles_that_are_missing(rt: HostRuntime) {
    let mut shelf = MemShelf::new(rt.alloc());
    for row in &UNREAD {
        put_input(&rt, &mut shelf, row);
        check_on(&rt, &mut shelf, row);
    }
}

static EMPTY_PROFILE: Row<'static> = Row {
    note: "an empty profile",
    end: End {
        note: Note::Profile(ProfileFault {
            line: 0,
            kind: FaultKind::Missing,
            total: 0,
        }),
        ..FAULTY
    },
    report: Some("profile line 0 fault 7\nstatus 3\n"),
    ..NONE
};

// A name of no file opens as an empty one where it is sure to read, and an empty text is no profile.
#[test]
fn a_profile_that_is_empty(rt: HostRuntime) {
    let words = words(&rt, &EMPTY_PROFILE);
    let mut shelf = WholeShelf::new(rt.alloc());
    ends_as(&rt, &words, &mut shelf, &EMPTY_PROFILE);
    same(&rt, &shelf.file("o.0.pcap"), &None, "an empty profile");
    drop(shelf);
}
