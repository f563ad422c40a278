//! The profiles of the tests. All ports have lines of 10^9 bytes per second and ample credits, and code points have their
//! default entries.
use profile_plan::Profile;
use qos_profile::read_profile;
use std::process::Abort;

/// The profile of a text. A function that holds one ends with `drop`: what that does is proved once, and not in each.
pub(crate) fn read<R: Abort + AllocGlobal>(rt: &R, text: &str) -> Profile {
    read_profile(rt.alloc(), text.as_bytes()).expect(rt, "a profile")
}

/// A port with two pipes. It goes on for a millisecond after the last arrival.
pub(crate) const ONE_PORT: &str = "[port 0]
line rate = 1000000000
subports = 1
drain ms = 1
[subport profile 0]
tb credits = 1
tb period = 1
tb size = 2000000
tc 0-12 credits = 1000000
tc period = 1000000
[subport 0 0]
profile = 0
pipes = 2
queue sizes = 64 64 64 64 64 64 64 64 64 64 64 64 64
pipe 0-1 = 0
[pipe profile 0]
tb credits = 1
tb period = 1
tb size = 2000000
tc 0-12 credits = 1000000
tc period = 1000000
";

/// IPv4 of input 0 goes to port 0, which sends frames of 1,522 bytes, and that of every other input to port 1, which sends
/// those of 1,523; input 2 has a meter, which holds 46 bytes in each bucket, earns none, and drops red packets. Of a frame
/// that is not IPv4 it says nothing.
pub(crate) const TWO_PORTS: &str = "[port 0]
line rate = 1000000000
subports = 1
mtu = 1522
drain ms = 0
[port 1]
line rate = 1000000000
subports = 1
mtu = 1523
drain ms = 0
[subport profile 0]
tb credits = 1
tb period = 1
tb size = 2000000
tc 0-12 credits = 1000000
tc period = 1000000
[subport 0 0]
profile = 0
pipes = 1
queue sizes = 64 64 64 64 64 64 64 64 64 64 64 64 64
pipe 0 = 0
[subport 1 0]
profile = 0
pipes = 1
queue sizes = 64 64 64 64 64 64 64 64 64 64 64 64 64
pipe 0 = 0
[pipe profile 0]
tb credits = 1
tb period = 1
tb size = 2000000
tc 0-12 credits = 1000000
tc period = 1000000
[meter m]
kind = srtcm
cir bytes = 0
cir period = 1
cbs = 46
ebs = 46
red = drop
[rule 0]
input = 0
proto = ipv4
port = 0
subport = 0
pipe = 0
code = dscp
[rule 1]
input = 2
proto = ipv4
port = 1
subport = 0
pipe = 0
code = dscp
meter = m
[rule 2]
proto = ipv4
port = 1
subport = 0
pipe = 0
code = dscp
";

/// A rule for each condition and each choice of a pipe. Subport 1 of port 0 has three pipes, and the others one.
pub(crate) const EVERY_RULE: &str = "[port 0]
line rate = 1000000000
subports = 2
drain ms = 0
[port 1]
line rate = 1000000000
subports = 1
drain ms = 0
[subport profile 0]
tb credits = 1
tb period = 1
tb size = 2000000
tc 0-12 credits = 1000000
tc period = 1000000
[subport 0 0]
profile = 0
pipes = 1
queue sizes = 64 64 64 64 64 64 64 64 64 64 64 64 64
pipe 0 = 0
[subport 0 1]
profile = 0
pipes = 3
queue sizes = 64 64 64 64 64 64 64 64 64 64 64 64 64
pipe 0-2 = 0
[subport 1 0]
profile = 0
pipes = 1
queue sizes = 64 64 64 64 64 64 64 64 64 64 64 64 64
pipe 0 = 0
[pipe profile 0]
tb credits = 1
tb period = 1
tb size = 2000000
tc 0-12 credits = 1000000
tc period = 1000000
[meter m]
kind = srtcm
cir rate = 0
cbs = 1
ebs = 0
red = pass
[rule 1]
input = 1
port = 1
subport = 0
pipe = 0
code = fixed 0 0 yellow
meter = m
[rule 2]
vlan = none
proto = mpls
port = 0
subport = 0
pipe = 0
code = fixed 3 0 green
[rule 3]
vlan = 0
port = 0
subport = 1
pipe = 1
code = dscp
[rule 5]
vlan = 4095
proto = other
port = 0
subport = 0
pipe = 0
code = fixed 12 3 red
[rule 8]
proto = ipv6
port = 0
subport = 1
pipe = vlan
code = dscp
[rule 13]
src = 10.0.0.0/8
dst = 192.168.0.0/16
port = 0
subport = 1
pipe = host
code = dscp
[rule 21]
src = 0.0.0.0/0
port = 0
subport = 0
pipe = 0
code = dscp
[rule 255]
port = 0
subport = 1
pipe = vlan
code = dscp
";
