// The request codes of the table (01, 'The byte pair'). They stay numbers: a K1 may have any of sixteen codes, and the definitions
// and theorems speak of codes as numbers.
use request::Request;

pub const LOCKOUT: u8 = 0b1111;

pub const FORCED_SWITCH: u8 = 0b1110;

pub const FAIL_HIGH: u8 = 0b1101;

pub(crate) const FAIL_LOW: u8 = 0b1100;

pub(crate) const DEGRADE_HIGH: u8 = 0b1011;

pub(crate) const DEGRADE_LOW: u8 = 0b1010;

pub(crate) const MANUAL_SWITCH: u8 = 0b1000;

pub const WAIT_TO_RESTORE: u8 = 0b0110;

pub const REVERSE: u8 = 0b0010;

pub const NOTHING: u8 = 0b0000;

// NR 0, which is sent where nothing is asked for.
pub(crate) const NO_REQUEST: Request = Request {
    code: NOTHING,
    channel: 0,
};
