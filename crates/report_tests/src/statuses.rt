//! The statuses of runs.
use crate::check::same;
use qos_pcap::{PcapFault, Stop};
use run_report::Status;

const STATUSES: [(Stop, bool, Status); 6] = [
    (Stop::End, false, Status::Fine),
    (Stop::End, true, Status::Write),
    (Stop::NotOpened, true, Status::Read),
    (Stop::Fault(PcapFault::Read), true, Status::Read),
    (Stop::Fault(PcapFault::BadLink), true, Status::Capture),
    (Stop::Fault(PcapFault::TooMany(24)), false, Status::Capture),
];

#[test]
fn a_run_has_its_status(rt: HostRuntime) {
    for (stopped, fault, status) in STATUSES {
        same(
            &rt,
            &Status::of_run(stopped, &[false, fault]),
            &status,
            "a run",
        );
    }
}
