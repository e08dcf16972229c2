/// How a run over lines ends.
#[derive(Debug, Drop, PartialEq, Eq)]
pub enum Ended<E> {
    /// A line ended the trace, or the input did.
    By(E),
    /// The source failed.
    SourceFault,
    /// The sink failed.
    SinkFault,
    /// Memory ran out.
    NoMemory,
}
