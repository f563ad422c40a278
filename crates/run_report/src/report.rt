//! The report of a command.
ghost use Rattle.std.specs.Prelude.{◌≡◌, ◌≤◌, Option};
ghost use Rattle.profile_plan.specs.Profile.{Plan};
ghost use Rattle.run_report.specs.Report.{report_of};
ghost use Rattle.run_report.specs.Reports.{Reports};

use crate::ended::Ended;
use crate::lines::report_text;
use crate::status::Status;
use profile_plan::Profile;
use qos_base::NoMemory;
use qos_io::{PutFault, Sink};
use std::alloc::Global;

/// Reports what a command ended with, and answers how the program ends. The profile is there where one was run.
///
/// The report is made whole and put at once. Where the put fails, the program's status is 5 if it was 0 till then; where
/// it is refused memory, it is 7. Where the report itself is refused memory, the status is 7 too, and that is reported.
pub fn put_report<K: Sink>(
    alloc: Global,
    p: &Option<Profile>,
    status: Status,
    ended: &Ended,
    said: &mut K,
) -> Status
    ensures reports { Reports K.Sink status p.now ended.now said.old said.new result }
    ensures name { K.name said.new ≡ K.name said.old }
    ensures never_falls { K.faults said.old ≤ K.faults said.new }
{
    // Where memory was refused already, the report takes none.
    if let Status::Memory = status {
        return put_memory(said);
    }
    match report_text(alloc, p, status, ended) {
        Ok(text) => put_text(&text, status, said),
        Err(NoMemory) => put_memory(said),
    }
}

/// Puts the report of want of memory, which is a constant.
pub fn put_memory<K: Sink>(said: &mut K) -> Status
    ensures reports { (status : Status) (profile : Option Plan) (ended : Ended)
        → Reports K.Sink status profile ended said.old said.new result }
    ensures name { K.name said.new ≡ K.name said.old }
    ensures never_falls { K.faults said.old ≤ K.faults said.new }
{
    put_text(b"memory\nstatus 7\n", Status::Memory, said)
}

// Puts the text of a report, and answers how the program ends.
fn put_text<K: Sink>(text: &[u8], status: Status, said: &mut K) -> Status
    ensures reports { (profile : Option Plan) (ended : Ended)
        → text.now ≡ report_of status profile ended
        → Reports K.Sink status profile ended said.old said.new result }
    ensures name { K.name said.new ≡ K.name said.old }
    ensures never_falls { K.faults said.old ≤ K.faults said.new }
{
    match said.put(text) {
        Ok(()) => status,
        Err(PutFault::Failed) => status.after_fault(),
        Err(PutFault::NoMemory) => Status::Memory,
    }
}
