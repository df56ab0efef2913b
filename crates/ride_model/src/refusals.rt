//! Why commands, reports and bookings are refused: the numbers that say so.

/// A request whose id was accepted before.
pub const KNOWN_ID: u8 = 1;

/// A request from or to what is no node.
pub const END_OFF_MAP: u8 = 2;

/// A request from a node to the same.
pub const SAME_ENDS: u8 = 3;

/// Too many seats or places for wheelchairs, or none.
pub const ODD_LOAD: u8 = 4;

/// A time out of its range.
pub const ODD_TIME: u8 = 5;

/// No more requests are accepted.
pub const REQUESTS_FULL: u8 = 6;

/// No such request.
pub const UNKNOWN_REQUEST: u8 = 7;

/// A request whose rider is aboard.
pub const RIDER_ABOARD: u8 = 8;

/// A request that is closed.
pub const REQUEST_CLOSED: u8 = 9;

/// No such vehicle.
pub const UNKNOWN_VEHICLE: u8 = 10;

/// A report at what is no node.
pub const REPORT_OFF_MAP: u8 = 11;

/// A report before the vehicle is ready.
pub const REPORT_TOO_EARLY: u8 = 12;

/// A report from where no way leads to the first stop.
pub const NO_WAY: u8 = 13;

/// A vehicle that has no stop.
pub const NO_STOP: u8 = 14;

/// A vehicle that is not at its first stop.
pub const NOT_AT_STOP: u8 = 15;

/// No more batches are asked for.
pub const BATCHES_FULL: u8 = 16;

/// A stop served after the day.
pub const DAY_OVER: u8 = 17;

/// A report to a company that is none.
pub const UNKNOWN_COMPANY: u8 = 18;

/// A booking whose id was booked before.
pub const BOOKED_BEFORE: u8 = 19;

/// A release after the latest time.
pub const LATE_RELEASE: u8 = 20;

/// A booking that is not held.
pub const NOT_HELD: u8 = 21;

/// No more bookings are taken.
pub const DESK_FULL: u8 = 22;
