//! The limits of devices.

/// The longest name of a path, in bytes.
pub const PART_LIMIT: usize = 255;

/// The longest text of a path, in bytes.
pub const PATH_LIMIT: usize = 4_096;

/// The longest file, in bytes.
pub const FILE_LIMIT: u64 = 1 << 62;

/// As far as this a source counts the bytes that it has given.
pub const GIVEN_LIMIT: u64 = 1 << 62;

/// The last moment that a clock reads, in seconds since 1970.
pub const MOMENT_LIMIT: u64 = 1 << 62;
