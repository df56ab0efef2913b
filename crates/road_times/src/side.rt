/// The side of a row of travel times.
#[derive(Clone, Copy, PartialEq, Eq)]
pub enum Side {
    /// From one node to the others.
    Out,
    /// From the others to one node.
    Back,
}
