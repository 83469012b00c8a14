//! The fields of keys and rows.

/// What keys and rows are made of, one field behind the other. Numbers are big-endian.
#[derive(Clone, Copy, Debug)]
pub enum Field {
    /// This byte.
    Byte(u8),
    /// A number of 8 bytes.
    Number,
    /// A number of 8 bytes that is not 0.
    Positive,
    /// The number 1, in 8 bytes.
    One,
    /// A number of 4 bytes.
    Count,
    /// A repository's name, ended by a zero byte.
    EndedName,
    /// A tag, ended by a zero byte.
    EndedTag,
    /// A digest: the byte 1 and 32 bytes.
    Digest,
    /// The number of a manifest's kind.
    Kind,
    /// Whether a named digest is free: 1 where it is, and else 0.
    Free,
    /// The number of a kind of entries.
    Event,
    /// The number of a table, any byte.
    Table,
    /// Two bytes for the length of a path's text, and the text.
    Path,
    /// Two bytes for the length of a key's bytes, and the bytes.
    Key,
}
