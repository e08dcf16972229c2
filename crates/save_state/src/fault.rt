//! Why bytes are no saved state.

/// The first fault of bytes that are no saved state.
#[derive(Clone, Copy, Debug, PartialEq, Eq)]
pub struct StateFault {
    /// The first byte of the field at fault; of a `Short` input its length, and of a `Trailing` one the length that
    /// was wanted.
    pub place: u64,
    /// What is at fault.
    pub kind: StateKind,
}

/// What is at fault.
#[derive(Clone, Copy, Debug, PartialEq, Eq)]
pub enum StateKind {
    /// The input ends before a field does.
    Short,
    /// The first bytes are those of no saved state.
    Magic,
    /// The version is one that isn't built.
    Version,
    /// The condition on a field fails.
    Field,
    /// Bytes follow the last field.
    Trailing,
}
