//! The profiles of the rows. All have one port on a line of 10^9 bytes per second.
use qos_profile::{Profile, read_profile};
use std::process::Abort;

/// The profile of a text.
pub fn read<R: Abort + AllocGlobal>(rt: &R, text: &str) -> Profile {
    read_profile(rt.alloc(), text.as_bytes()).expect(rt, "a profile")
}

/// Two pipes, and credits for all.
pub const TWO_PIPES: &str = "[port 0]
line rate = 1000000000
subports = 1
[subport profile 0]
tb credits = 1
tb period = 1
tb size = 2000000
tc 0-12 credits = 1000000
tc period = 1000000
[subport 0 0]
profile = 0
pipes = 2
queue sizes = 64 64 64 64 64 64 64 64 64 64 64 64 64
pipe 0-1 = 0
[pipe profile 0]
tb credits = 1
tb period = 1
tb size = 2000000
tc 0-12 credits = 1000000
tc period = 1000000
[rule 0]
port = 0
subport = 0
pipe = 0
code = dscp
";

/// A pipe whose bucket holds 2,000 bytes and starts with half of them; it earns hardly anything.
pub const BUCKET: &str = "[port 0]
line rate = 1000000000
subports = 1
[subport profile 0]
tb credits = 1
tb period = 1
tb size = 2000000
tc 0-12 credits = 1000000
tc period = 1000000
[subport 0 0]
profile = 0
pipes = 1
queue sizes = 64 64 64 64 64 64 64 64 64 64 64 64 64
pipe 0 = 0
[pipe profile 0]
tb credits = 1
tb period = 1000000000
tb size = 2000
tc 0-12 credits = 1000000
tc period = 1000000
[rule 0]
port = 0
subport = 0
pipe = 0
code = dscp
";

/// A pipe whose bucket holds 300 bytes and earns 100 every 100 byte times.
pub const FAST_BUCKET: &str = "[port 0]
line rate = 1000000000
subports = 1
[subport profile 0]
tb credits = 1
tb period = 1
tb size = 2000000
tc 0-12 credits = 1000000
tc period = 1000000
[subport 0 0]
profile = 0
pipes = 1
queue sizes = 64 64 64 64 64 64 64 64 64 64 64 64 64
pipe 0 = 0
[pipe profile 0]
tb credits = 100
tb period = 100
tb size = 300
tc 0-12 credits = 1000000
tc period = 1000000
[rule 0]
port = 0
subport = 0
pipe = 0
code = dscp
";

/// A pipe whose class 0 may send one packet of 60 bytes every 1,000 byte times.
pub const CLASSES: &str = "[port 0]
line rate = 1000000000
subports = 1
[subport profile 0]
tb credits = 1
tb period = 1
tb size = 2000000
tc 0-12 credits = 1000000
tc period = 1000000
[subport 0 0]
profile = 0
pipes = 1
queue sizes = 64 64 64 64 64 64 64 64 64 64 64 64 64
pipe 0 = 0
[pipe profile 0]
tb credits = 1
tb period = 1
tb size = 2000000
tc 0 credits = 84
tc 1-12 credits = 1000000
tc period = 1000
[rule 0]
port = 0
subport = 0
pipe = 0
code = dscp
";

/// Frames take nothing but their own bytes, and four best effort queues have weights 1, 2, 4 and 8.
pub const FREE: &str = "[port 0]
line rate = 1000000000
subports = 1
frame overhead = 0
[subport profile 0]
tb credits = 1
tb period = 1
tb size = 2000000
tc 0-12 credits = 1000000
tc period = 1000000
[subport 0 0]
profile = 0
pipes = 1
queue sizes = 64 64 64 64 64 64 64 64 64 64 64 64 64
pipe 0 = 0
[pipe profile 0]
tb credits = 1
tb period = 1
tb size = 2000000
tc 0-12 credits = 1000000
tc period = 1000000
tc 12 wrr weights = 1 2 4 8
[rule 0]
port = 0
subport = 0
pipe = 0
code = dscp
";

/// Best effort queues hold two packets, and class 11 has a closed queue.
pub const SHORT_QUEUES: &str = "[port 0]
line rate = 1000000000
subports = 1
[subport profile 0]
tb credits = 1
tb period = 1
tb size = 2000000
tc 0-12 credits = 1000000
tc period = 1000000
[subport 0 0]
profile = 0
pipes = 1
queue sizes = 64 64 64 64 64 64 64 64 64 64 64 0 2
pipe 0 = 0
[pipe profile 0]
tb credits = 1
tb period = 1
tb size = 2000000
tc 0-12 credits = 1000000
tc period = 1000000
[rule 0]
port = 0
subport = 0
pipe = 0
code = dscp
";

/// A pipe whose class 0 may send two packets of 60 bytes every 1,000,000 byte times.
pub const PRIORITY: &str = "[port 0]
line rate = 1000000000
subports = 1
[subport profile 0]
tb credits = 1
tb period = 1
tb size = 2000000
tc 0-12 credits = 1000000
tc period = 1000000
[subport 0 0]
profile = 0
pipes = 1
queue sizes = 64 64 64 64 64 64 64 64 64 64 64 64 64
pipe 0 = 0
[pipe profile 0]
tb credits = 1
tb period = 1
tb size = 2000000
tc 0 credits = 168
tc 1-12 credits = 1000000
tc period = 1000000
[rule 0]
port = 0
subport = 0
pipe = 0
code = dscp
";

/// A pipe whose bucket holds 400 bytes and earns 100 every 1,000 byte times.
pub const SHARED_BUCKET: &str = "[port 0]
line rate = 1000000000
subports = 1
[subport profile 0]
tb credits = 1
tb period = 1
tb size = 2000000
tc 0-12 credits = 1000000
tc period = 1000000
[subport 0 0]
profile = 0
pipes = 1
queue sizes = 64 64 64 64 64 64 64 64 64 64 64 64 64
pipe 0 = 0
[pipe profile 0]
tb credits = 100
tb period = 1000
tb size = 400
tc 0-12 credits = 1000000
tc period = 1000000
[rule 0]
port = 0
subport = 0
pipe = 0
code = dscp
";

/// Two pipes of 12,800 best effort bytes in a subport that has 20,000, every 100,000 byte times; packets cost at most 6,400.
pub const WATERMARK: &str = "[port 0]
line rate = 1000000000
subports = 1
mtu = 6376
[subport profile 0]
tb credits = 1
tb period = 1
tb size = 2000000
tc 0-11 credits = 1000000
tc 12 credits = 20000
tc period = 100000
[subport 0 0]
profile = 0
pipes = 2
queue sizes = 64 64 64 64 64 64 64 64 64 64 64 64 64
pipe 0-1 = 0
oversubscription = yes
[pipe profile 0]
tb credits = 1
tb period = 1
tb size = 2000000
tc 0-11 credits = 1000000
tc 12 credits = 12800
tc period = 100000
[rule 0]
port = 0
subport = 0
pipe = 0
code = dscp
";

/// Two subports, the first of two pipes, and credits for all.
pub const TWO_SUBPORTS: &str = "[port 0]
line rate = 1000000000
subports = 2
[subport profile 0]
tb credits = 1
tb period = 1
tb size = 2000000
tc 0-12 credits = 1000000
tc period = 1000000
[subport 0 0]
profile = 0
pipes = 2
queue sizes = 64 64 64 64 64 64 64 64 64 64 64 64 64
pipe 0-1 = 0
[subport 0 1]
profile = 0
pipes = 1
queue sizes = 64 64 64 64 64 64 64 64 64 64 64 64 64
pipe 0 = 0
[pipe profile 0]
tb credits = 1
tb period = 1
tb size = 2000000
tc 0-12 credits = 1000000
tc period = 1000000
[rule 0]
port = 0
subport = 0
pipe = 0
code = dscp
";

/// Four best effort queues with weights 1, 2, 4 and 8.
pub const WEIGHTS: &str = "[port 0]
line rate = 1000000000
subports = 1
[subport profile 0]
tb credits = 1
tb period = 1
tb size = 2000000
tc 0-12 credits = 1000000
tc period = 1000000
[subport 0 0]
profile = 0
pipes = 1
queue sizes = 64 64 64 64 64 64 64 64 64 64 64 64 64
pipe 0 = 0
[pipe profile 0]
tb credits = 1
tb period = 1
tb size = 2000000
tc 0-12 credits = 1000000
tc period = 1000000
tc 12 wrr weights = 1 2 4 8
[rule 0]
port = 0
subport = 0
pipe = 0
code = dscp
";
