//! How a booking is answered.

/// How a booking is answered.
#[derive(Clone, Copy, PartialEq, Eq)]
pub enum BookReply {
    /// It is made, and held until its release.
    Held,
    /// It is made, and its release has come already, so that it is not held.
    Now,
    /// It is not made.
    Refused {
        /// 19 where the request was booked before, 20 where the release is out of its range, 22 where the desk is full.
        code: u8,
    },
}
