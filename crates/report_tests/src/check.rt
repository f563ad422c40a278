//! Reports that are put into a sink in memory, and how values are compared.
use profile_plan::Profile;
use qos_io::MemSink;
use run_report::{Ended, Note, Status, put_report};
use std::fmt::Debug;
use std::process::Abort;

/// What is reported: which puts fail, how the program ends, and what the sink holds then.
pub(crate) struct Row {
    pub(crate) note: &'static str,
    pub(crate) status: Status,
    pub(crate) why: Note,
    pub(crate) fails: &'static [u32],
    pub(crate) ends: Status,
    pub(crate) text: &'static str,
}

/// The value is the wanted one; the note names the case.
pub(crate) fn same<T: PartialEq + Debug>(rt: &impl Abort, value: &T, wanted: &T, note: &str) {
    assert_eq!(rt; value, wanted, "{note}");
}

fn sink<R: Abort + AllocGlobal>(rt: &R, fails: &[u32]) -> MemSink {
    MemSink::new(rt.alloc(), fails.to_vec(rt.alloc()).expect(rt, "memory"))
}

/// Reports what a command ended with, and compares.
pub(crate) fn reports<R: Abort + AllocGlobal>(
    rt: &R,
    p: &Option<Profile>,
    ended: &Ended,
    row: &Row,
) {
    let mut said = sink(rt, row.fails);
    let ends = put_report(rt.alloc(), p, row.status, ended, &mut said);
    same(
        rt,
        &(ends, said.bytes()),
        &(row.ends, row.text.as_bytes()),
        row.note,
    );
}
