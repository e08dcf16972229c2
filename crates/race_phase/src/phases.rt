//! A trace by its phases.
use crate::records::RecordList;
use trace_blocks::End;

/// Records in file order, and what ends them.
#[derive(Drop)]
pub struct Phase {
    pub records: RecordList,
    pub end: End,
}
