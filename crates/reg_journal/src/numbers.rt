//! The numbers of the kinds of entries, as an entry's bytes begin with them.

pub const PUT: u8 = 1;

pub const SET_TAG: u8 = 2;

pub const DROP_TAG: u8 = 3;

pub const DROP_MANIFEST: u8 = 4;

pub const MARK: u8 = 5;

pub const LINK: u8 = 6;

pub const UNLINK: u8 = 7;

pub const BROUGHT: u8 = 8;

pub const BROUGHT_LINK: u8 = 9;

pub const BROUGHT_TAG: u8 = 10;

pub const REMOVED_MANIFEST: u8 = 11;

pub const REMOVED_LINK: u8 = 12;

pub const OPENED: u8 = 13;

pub const BROUGHT_BLOB: u8 = 14;

pub const COLLECT: u8 = 15;

pub const DROP_LINK: u8 = 16;

pub const DOOM: u8 = 17;

pub const ERASE: u8 = 18;
