use std::sync::Wait;

/// Calls round the work of a processor's worker, by which a test can hold it. A gate may wait. In `before` and `after`
/// of an access a worker may have the board's lock, unless fewer than 1,000 records of its processor are left; it never
/// has it in those of a page or a clock.
pub trait Gate {
    /// Called before record `index` of processor `cpu`, counted from 0 within its phase.
    fn before<R: Wait>(&self, rt: &R, cpu: u8, index: u64);

    /// Called after that record.
    fn after<R: Wait>(&self, rt: &R, cpu: u8, index: u64);

    /// Called once in each access on a shared board, when it has the lock and has done nothing else
    /// under it.
    fn inside<R: Wait>(&self, rt: &R, cpu: u8);
}

/// A gate that holds nobody.
#[derive(Clone, Copy, Debug, PartialEq, Eq)]
pub struct OpenGate;

impl Gate for OpenGate {
    fn before<R: Wait>(&self, _rt: &R, _cpu: u8, _index: u64) {}

    fn after<R: Wait>(&self, _rt: &R, _cpu: u8, _index: u64) {}

    fn inside<R: Wait>(&self, _rt: &R, _cpu: u8) {}
}
