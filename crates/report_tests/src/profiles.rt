//! The profile of the run that is reported.
use profile_plan::Profile;
use qos_profile::read_profile;
use std::process::Abort;

/// A profile with two meters; sections are skipped at lines 1 and 5.
pub(crate) const PROFILE: &str = "[red]
[port 0]
line rate = 1000000000
subports = 1
[red]
[subport profile 0]
tb credits = 1
tb period = 1
tb size = 2000000
tc 0-12 credits = 1000000
tc period = 1000000
[subport 0 0]
profile = 0
pipes = 1
queue sizes = 64 64 64 64 64 64 64 64 64 64 64 64 64
pipe 0 = 0
[pipe profile 0]
tb credits = 1
tb period = 1
tb size = 2000000
tc 0-12 credits = 1000000
tc period = 1000000
[meter m1]
kind = srtcm
mode = blind
cir bytes = 0
cir period = 1
cbs = 46
ebs = 46
[meter gold]
kind = srtcm
mode = blind
cir bytes = 0
cir period = 1
cbs = 46
ebs = 46
[rule 0]
port = 0
subport = 0
pipe = 0
code = dscp
";

/// The profile that a text says.
pub(crate) fn profile<R: Abort + AllocGlobal>(rt: &R, text: &str) -> Profile {
    read_profile(rt.alloc(), text.as_bytes()).expect(rt, "the profile")
}
