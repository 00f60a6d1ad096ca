//! How large addresses and their parts are.

/// The bits of an IPv4 address.
pub const V4_BITS: u32 = 32;

/// The bits of an IPv6 address.
pub const V6_BITS: u32 = 128;

/// The bytes of an IPv4 address.
pub const BYTES: u32 = 4;

/// The groups of an IPv6 address.
pub const GROUPS: u32 = 8;

/// How many values a byte has.
pub const BYTE_VALUES: u128 = 256;

/// How many values a group has.
pub const GROUP_VALUES: u128 = 65536;

/// The bits of a byte.
pub const BYTE_BITS: u32 = 8;

/// The highest byte.
pub const HIGHEST_BYTE: u32 = 255;

/// The base in which bytes and masks are written.
pub const DECIMAL: u32 = 10;

/// The base in which groups are written.
pub const HEXADECIMAL: u32 = 16;

/// How many digits write a byte at most.
pub const BYTE_DIGITS: usize = 3;

/// How many digits write a group at most.
pub const GROUP_DIGITS: usize = 4;

/// The highest port of a connection.
pub const HIGHEST_PORT: u32 = 65_535;
