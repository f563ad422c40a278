//! The names of the Differentiated Services code points, six bits each.

/// Class selectors (RFC 2474, section 4.2.2).
pub const CS0: usize = 0b000_000;

pub const CS1: usize = 0b001_000;

pub const CS2: usize = 0b010_000;

pub const CS3: usize = 0b011_000;

pub const CS4: usize = 0b100_000;

pub const CS5: usize = 0b101_000;

pub const CS6: usize = 0b110_000;

pub const CS7: usize = 0b111_000;

/// Assured forwarding (RFC 2597, section 6): the class, then the drop precedence.
pub const AF11: usize = 0b001_010;

pub const AF12: usize = 0b001_100;

pub const AF13: usize = 0b001_110;

pub const AF21: usize = 0b010_010;

pub const AF22: usize = 0b010_100;

pub const AF23: usize = 0b010_110;

pub const AF31: usize = 0b011_010;

pub const AF32: usize = 0b011_100;

pub const AF33: usize = 0b011_110;

pub const AF41: usize = 0b100_010;

pub const AF42: usize = 0b100_100;

pub const AF43: usize = 0b100_110;

/// Expedited forwarding (RFC 3246, section 2.7).
pub const EF: usize = 0b101_110;
