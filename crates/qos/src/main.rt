//! The program: `qos run --profile FILE --out PREFIX CAPTURE` puts one capture through the ports of a profile.
//!
//! It hands its words, the system's files and standard output to `qos_top` of the crate `qos_main`, whose contract
//! says what a run comes to, and ends with the status that it answers.
#![tactic(auto)]

use qos_io::OpenGate;
use qos_main::{FileShelf, StdoutSink, put_memory, qos_top};
use std::alloc::AllocError;
use std::env;
use std::io::ErrorKind;
use std::process::ExitCode;
use std::rt::Env;

// The words after the program's name. Where one is not UTF-8 there are none: a faulty command line too.
fn arguments<R: Env + AllocGlobal>(rt: &R) -> Result<Vec<String>, AllocError> {
    match env::args(rt) {
        Ok(args) => args.skip(1).collect(rt.alloc()),
        Err(error) if error.kind() == ErrorKind::OutOfMemory => Err(AllocError),
        Err(_) => Ok(Vec::new(rt.alloc())),
    }
}

fn main(rt: HostRuntime) -> ExitCode {
    let mut said = StdoutSink::new(&rt);
    let (Ok(words), Ok(mut shelf)) = (arguments(&rt), FileShelf::new(&rt)) else {
        return ExitCode::from(put_memory(&mut said).number());
    };
    let ended = qos_top(&rt, rt.alloc(), &words, &mut shelf, &mut said, &OpenGate);
    ExitCode::from(ended.status)
}
