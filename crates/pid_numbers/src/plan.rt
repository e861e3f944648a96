//! Plans of draws.

use pid_types::keys::SpaceKey;

/// Why a new namespace cannot be made.
#[derive(Clone, Copy, Debug, PartialEq, Eq)]
pub enum PlanFault {
    /// The namespace around it has the deepest level, 32 (`pid_namespaces(7)`, "Nesting PID
    /// namespaces").
    TooDeep,
    /// The namespace with this key has no number to give.
    NoNumber(SpaceKey),
}
