//! The units that number texts are made of.

pub const BLANK: u16 = 0x20;

pub const PLUS: u16 = 0x2b;

pub const MINUS: u16 = 0x2d;

pub const POINT: u16 = 0x2e;

pub const ZERO: u16 = 0x30;

pub const NINE: u16 = 0x39;
