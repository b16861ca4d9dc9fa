//! The bytes that tell apart effects, references, values in effects and what a timer keeps.

pub const SET_FIELD: u8 = 0x01;

pub const SET_ATTR: u8 = 0x02;

pub const CREATE: u8 = 0x03;

pub const REMOVE: u8 = 0x04;

pub const SET_PRIORITY: u8 = 0x05;

pub const ATTACH: u8 = 0x06;

pub const DETACH: u8 = 0x07;

pub const SET_MASK: u8 = 0x08;

pub const FIRE: u8 = 0x09;

pub const NEW_NULL: u8 = 0x0A;

pub const END_NULL: u8 = 0x0B;

pub const SET_TIMER: u8 = 0x0C;

pub const CANCEL_TIMER: u8 = 0x0D;

pub const BIND: u8 = 0x0E;

pub const UNBIND: u8 = 0x0F;

pub const EMIT: u8 = 0x10;

pub const USAGE: u8 = 0x11;

pub const SUSPEND: u8 = 0x20;

pub const RESUME: u8 = 0x21;

pub const KNOWN: u8 = 0;

pub const FRESH: u8 = 1;

pub const PLAIN: u8 = 0;

pub const NEW_ACTIVITY: u8 = 1;

pub const NEW_TIMER: u8 = 2;

pub const KEEP_ALL: u8 = 0;

pub const KEEP_LAST: u8 = 1;

pub const KEEP_NONE: u8 = 2;
