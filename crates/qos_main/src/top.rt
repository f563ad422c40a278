//! The call that the program makes: a command, from its words to its report.
ghost use Rattle.std.specs.Prelude.{◌≡◌, ◌≤◌, ◌⊎◌, ℕ, [], None, Option};
ghost use Rattle.qos_io.specs.Fault.{HasRisen};
ghost use Rattle.port_files.specs.Among.{ChangesAmong};
ghost use Rattle.profile_plan.specs.Profile.{Plan};
ghost use Rattle.qos_main.specs.Command.{CommandEnds, IfAsked, IsEmptyEnd, IsNothing, IsReported, asked};
ghost use Rattle.qos_main.specs.Causes.{HasCauses, IsComplete};

use crate::run::run;
use profile_file::{LoadFault, load_profile};
use profile_plan::Profile;
use qos_base::{NoMemory, Sequence};
use qos_io::{Gate, Shelf, Sink};
use qos_pcap::laws::reads_one_way;
use qos_words::{RunWords, read_words};
use run_report::{Ended, Note, Status, put_report};
use std::alloc::Global;
use std::sync::Wait;
use std::thread::Threads;

// What a command came to before its report, and the profile that was run.
struct Done {
    ended: Ended,
    status: Status,
    profile: Option<Profile>,
}

// An end where nothing was scheduled.
fn nothing(alloc: Global, status: Status, note: Note) -> Done
    ensures empty { IsEmptyEnd result.ended }
    ensures note { result.ended.note ≡ note }
    ensures status { result.status ≡ status }
    ensures profile { result.profile ≡ None }
{
    let ended = Ended {
        status: status.number(),
        ports: Sequence::of(Vec::new(alloc)),
        meters: Sequence::of(Vec::new(alloc)),
        inputs: Sequence::of(Vec::new(alloc)),
        write_fault: Sequence::of(Vec::new(alloc)),
        note,
    };
    Done {
        ended,
        status,
        profile: None,
    }
}

// Runs a command, before the report: the profile is read first.
fn run_command<R: Wait, H: Shelf>(
    rt: &R,
    alloc: Global,
    command: &RunWords<'_>,
    shelf: &mut H,
) -> Done
    ensures ends { (number : ℕ) → CommandEnds H.Shelf command.now shelf.old shelf.new result.profile result.status
        (record result.ended { status = number }) }
    ensures never_falls { H.faults shelf.old ≤ H.faults shelf.new }
{
    let p = match load_profile(alloc, shelf, command.profile) {
        Err(LoadFault::Unread) => return nothing(alloc, Status::Read, Note::ProfileRead),
        Err(LoadFault::Fault(fault)) => {
            return nothing(alloc, Status::Profile, Note::Profile(fault));
        }
        Err(LoadFault::NoMemory) => return nothing(alloc, Status::Memory, Note::Nothing),
        Ok(p) => p,
    };
    match run(rt, alloc, command, &p, shelf) {
        Ok((ended, status)) => Done {
            ended,
            status,
            profile: Some(p),
        },
        Err(NoMemory) => nothing(alloc, Status::Memory, Note::Nothing),
    }
}

// Runs what the words ask for, before the report.
fn run_words<R: Wait, H: Shelf>(rt: &R, alloc: Global, words: &[String], shelf: &mut H) -> Done
    ensures usage { asked words.now ≡ None → (result.status ≡ Status.Usage) × (result.profile ≡ None)
        × IsNothing H.Shelf shelf.old shelf.new Note.Nothing result.ended }
    ensures ends { IfAsked words.now (λ command. (number : ℕ)
        → CommandEnds H.Shelf command shelf.old shelf.new result.profile result.status (record result.ended { status = number })) }
    ensures never_falls { H.faults shelf.old ≤ H.faults shelf.new }
{
    match read_words(words) {
        None => nothing(alloc, Status::Usage, Note::Nothing),
        Some(command) => run_command(rt, alloc, &command, shelf),
    }
}

/// Runs the command that the program's words ask for, and reports how it ended.
///
/// At this stage the only command is `run --profile FILE --out PREFIX CAPTURE`. The profile FILE is read first. Then one
/// record of the capture after another is read, classified and, where its rule names a meter, marked; the admitted packets
/// go through the scheduler of their port, paced by their stamps; what port n sends is written at once into the capture
/// `PREFIX.n.pcap`; the report goes to `said`. Where the capture stops early, what was read before it is scheduled and
/// written all the same. The gate is not used yet, and no thread is started. The call may wait.
///
/// The status of the returned value is the first that holds of: 2 the words ask for no command; 4 the profile could not be
/// read; 3 it is none; 7 memory was refused; 4 the capture could not be opened or read; 6 it is no whole capture; 5 an
/// output or the report could not be written; else 0.
pub fn qos_top<R: Threads + Wait + Sync, H: Shelf, K: Sink, G: Gate>(
    rt: &R,
    alloc: Global,
    words: &[String],
    shelf: &mut H,
    said: &mut K,
    _gate: &G,
) -> Ended
    // Where the words ask for no command, nothing is scheduled, no file changes and `usage` is reported.
    ensures usage { asked words.now ≡ None → IsReported K.Sink None Status.Usage said.old said.new result
        × IsNothing H.Shelf shelf.old shelf.new Note.Nothing result }

    // Where they ask for one, it ends in one of the ways of a command, and the report of that is put.
    ensures ends { IfAsked words.now (λ command. (profile : Option Plan) × (status : Status)
        × CommandEnds H.Shelf command shelf.old shelf.new profile status result
        × IsReported K.Sink profile status said.old said.new result) }

    // Each status has its cause, and with names and a report that do not fail the files' bytes alone say which it is, but for
    // want of memory.
    ensures causes { IfAsked words.now (λ command. HasCauses H.Shelf command shelf.old (HasRisen (K.faults said.old) (K.faults said.new)) result) }
    ensures complete { IfAsked words.now (λ command. IsComplete H.Shelf command shelf.old (HasRisen (K.faults said.old) (K.faults said.new)) result) }

    // No count of faults falls.
    ensures faults { (H.faults shelf.old ≤ H.faults shelf.new) × (K.faults said.old ≤ K.faults said.new) }
{
    reads_one_way();
    let Done {
        mut ended,
        status,
        profile,
    } = run_words(rt, alloc, words, shelf);
    ended.status = put_report(alloc, &profile, status, &ended, said).number();
    ended
}
