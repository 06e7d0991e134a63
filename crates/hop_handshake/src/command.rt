//! The commands of the cells that open a circuit and answer it (tor-spec, "Cell format").

pub const DESTROY: u8 = 4;

pub const CREATE_FAST: u8 = 5;

pub const CREATED_FAST: u8 = 6;

pub const CREATE2: u8 = 10;

pub const CREATED2: u8 = 11;
