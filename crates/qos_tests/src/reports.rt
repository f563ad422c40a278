//! Reports in full.

/// A section of the profile is skipped.
pub const MANY_PIPES: &str = "\
note line 15 skipped
input 0 read 1000 sent 1000 left 0 unparsed 0 unmatched 0 oversize 0 toolong 0 noslot 0 policed 0 tailfull 0 unwritten 0
port 0 arrived 1000 sent 1000 left 0 tailfull 0 unwritten 0 dequeues 1000 time 1248750124
status 0
";

pub const ONE_FRAME: &str = "\
input 0 read 1 sent 1 left 0 unparsed 0 unmatched 0 oversize 0 toolong 0 noslot 0 policed 0 tailfull 0 unwritten 0
port 0 arrived 1 sent 1 left 0 tailfull 0 unwritten 0 dequeues 1 time 84
status 0
";

pub const ELEVEN_OF_TWELVE: &str = "\
input 0 read 12 sent 11 left 1 unparsed 0 unmatched 0 oversize 0 toolong 0 noslot 0 policed 0 tailfull 0 unwritten 0
port 0 arrived 12 sent 11 left 1 tailfull 0 unwritten 0 dequeues 18 time 983964
status 0
";

pub const FULL_QUEUE: &str = "\
input 0 read 4 sent 1 left 2 unparsed 0 unmatched 0 oversize 0 toolong 0 noslot 0 policed 0 tailfull 1 unwritten 0
port 0 arrived 4 sent 1 left 2 tailfull 1 unwritten 0 dequeues 1 time 84
status 0
";

pub const CUT_RECORD: &str = "\
input 0 read 2 sent 2 left 0 unparsed 0 unmatched 0 oversize 0 toolong 0 noslot 0 policed 0 tailfull 0 unwritten 0
input 0 fault 5 at 176
port 0 arrived 2 sent 2 left 0 tailfull 0 unwritten 0 dequeues 2 time 168
status 6
";

pub const CUT_HEADER: &str = "\
input 0 read 0 sent 0 left 0 unparsed 0 unmatched 0 oversize 0 toolong 0 noslot 0 policed 0 tailfull 0 unwritten 0
input 0 fault 4 at 23
port 0 arrived 0 sent 0 left 0 tailfull 0 unwritten 0 dequeues 0 time 0
status 6
";

pub const ANOTHER_MAGIC: &str = "\
input 0 read 0 sent 0 left 0 unparsed 0 unmatched 0 oversize 0 toolong 0 noslot 0 policed 0 tailfull 0 unwritten 0
input 0 fault 1 at 0
port 0 arrived 0 sent 0 left 0 tailfull 0 unwritten 0 dequeues 0 time 0
status 6
";

pub const ANOTHER_LINK: &str = "\
input 0 read 0 sent 0 left 0 unparsed 0 unmatched 0 oversize 0 toolong 0 noslot 0 policed 0 tailfull 0 unwritten 0
input 0 fault 3 at 0
port 0 arrived 0 sent 0 left 0 tailfull 0 unwritten 0 dequeues 0 time 0
status 6
";

pub const NOT_OPENED: &str = "\
input 0 read 0 sent 0 left 0 unparsed 0 unmatched 0 oversize 0 toolong 0 noslot 0 policed 0 tailfull 0 unwritten 0
input 0 not opened
port 0 arrived 0 sent 0 left 0 tailfull 0 unwritten 0 dequeues 0 time 0
status 4
";

/// Four frames, of which a meter polices two.
pub const POLICED: &str = "\
input 0 read 4 sent 1 left 1 unparsed 0 unmatched 0 oversize 0 toolong 0 noslot 0 policed 2 tailfull 0 unwritten 0
port 0 arrived 2 sent 1 left 1 tailfull 0 unwritten 0 dequeues 1 time 84
meter m green 1 yellow 1 red 2
status 0
";
