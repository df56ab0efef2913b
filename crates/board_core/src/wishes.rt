//! What a rider asks for.

/// A request's numbers, as its line has them.
#[derive(Clone, Copy)]
pub(crate) struct Wish {
    pub(crate) id: u64,
    pub(crate) from: u64,
    pub(crate) to: u64,
    pub(crate) seats: u64,
    pub(crate) latest: u64,
    pub(crate) longest: u64,
    pub(crate) chairs: u64,
}
