//! A call to the outside that failed.

/// The call failed, for whatever reason the system had. The object that was called has counted
/// it, but for a file that is known to be missing.
#[derive(Clone, Copy, Debug, PartialEq, Eq)]
pub struct Failed;
