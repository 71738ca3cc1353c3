//! The choice of deciders.
/// The deciders in use.
#[derive(Clone, Copy, Debug, PartialEq, Eq)]
pub struct Plan {
    /// Search for cyclers.
    pub cyclers: bool,
    /// Search for translated cyclers.
    pub translated: bool,
    /// Reason backward.
    pub backward: bool,
}
