//! In what form a capture has its numbers.
ghost use Rattle.std.specs.Prelude.{◌≡◌, ◌≤◌, length};

use byteorder::{BigEndian, ByteOrder, LittleEndian};

/// The order in which a number has its bytes.
#[derive(Clone, Copy, Debug, PartialEq, Eq)]
pub(crate) enum Order {
    /// The lowest byte comes first.
    Little,
    /// The highest byte comes first.
    Big,
}

/// What the magic number of a capture tells.
#[derive(Clone, Copy, Debug, PartialEq, Eq)]
pub(crate) struct Form {
    pub(crate) order: Order,
    /// How many nanoseconds one unit of a record's fraction is: 1, or 1,000.
    pub(crate) unit: u32,
}

impl Order {
    ghost use Rattle.qos_pcap.specs.Format.{number_in};

    /// The number in the first two bytes.
    pub(crate) fn read_u16(self, bytes: &[u8]) -> u16
        requires { 2 ≤ length bytes.now }
        ensures { result ≡ number_in self 2 bytes.now }
    {
        match self {
            Order::Little => LittleEndian::read_u16(bytes),
            Order::Big => BigEndian::read_u16(bytes),
        }
    }

    /// The number in the first four bytes.
    pub(crate) fn read_u32(self, bytes: &[u8]) -> u32
        requires { 4 ≤ length bytes.now }
        ensures { result ≡ number_in self 4 bytes.now }
    {
        match self {
            Order::Little => LittleEndian::read_u32(bytes),
            Order::Big => BigEndian::read_u32(bytes),
        }
    }
}
