//! The relay commands (tor-spec, "Relay cells").

pub const BEGIN: u8 = 1;

pub const DATA: u8 = 2;

pub const END: u8 = 3;

pub const CONNECTED: u8 = 4;

pub const SENDME: u8 = 5;

pub const TRUNCATE: u8 = 8;

pub const TRUNCATED: u8 = 9;

pub const DROP: u8 = 10;

pub const RESOLVE: u8 = 11;

pub const RESOLVED: u8 = 12;

pub const BEGIN_DIR: u8 = 13;

pub const EXTEND2: u8 = 14;

pub const EXTENDED2: u8 = 15;
