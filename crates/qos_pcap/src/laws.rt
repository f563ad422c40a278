//! What holds of captures beside their calls.
ghost use Rattle.qos_pcap.specs.First.{FirstStamps};
ghost use Rattle.qos_pcap.specs.Reads.{ReadsOneWay};
ghost use Rattle.qos_pcap.specs.Written.{ReadsBack};

/// Each text and limit have exactly one list of records and one stop.
pub fn reads_one_way()
    ensures { ReadsOneWay }
{}

/// Records that are written are read again as the same records, up to the end.
pub fn reads_back()
    ensures { ReadsBack }
{}

/// The first head of a capture is that of its first record, where it has one.
pub fn first_stamps()
    ensures { FirstStamps }
{}
