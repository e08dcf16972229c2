//! An access as it is asked.
use board_core::Access;

/// An access that a caller asks for.
#[derive(Clone, Copy, Debug, PartialEq, Eq)]
pub struct Asked {
    /// The processor.
    pub cpu: u8,
    /// The count of the host's counter.
    pub h: u64,
    pub access: Access,
}

/// An access that a pass asks for: all that its entry has but the reply.
#[derive(Clone, Copy, Debug, PartialEq, Eq)]
pub struct Call {
    /// The number of the pass.
    pub pass: u64,
    pub asked: Asked,
}
