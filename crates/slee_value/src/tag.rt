//! The byte that begins the bytes of a value, by the value's type.

pub const INT_TAG: u8 = 0;

pub const TEXT_TAG: u8 = 1;

pub const FLAG_TAG: u8 = 2;

pub const ACTIVITY_TAG: u8 = 3;

pub const TIMER_TAG: u8 = 4;
