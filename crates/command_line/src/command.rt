//! The commands.
/// How large a trace is that is generated.
#[derive(Clone, Copy, Debug, PartialEq, Eq)]
pub struct Size {
    /// What the random numbers come from.
    pub key: u64,
    /// How many records there are, up to `RECORDS_MAX` of trace_gen where a command has the size.
    pub records: u64,
    /// How many processors there are, from 1 to `CPUS_MAX`.
    pub cpus: u64,
}

/// A page of the help.
#[derive(Clone, Copy, Debug, PartialEq, Eq)]
pub enum Page {
    /// What the program is, its jobs and how it ends.
    Overview,
    /// The job `replay`.
    OfReplay,
    /// The job `race`.
    OfRace,
    /// The job `gen`.
    OfGen,
    /// The job `soak`.
    OfSoak,
}

/// What a list of words asks for.
#[derive(Clone, Copy, Debug, PartialEq, Eq)]
pub enum Command {
    /// `replay`: a trace is answered record by record; at its end the board's state is shown where that is asked.
    Replay { shows_state: bool },
    /// `race`: the processors of a trace run on threads of their own.
    Race { shows_state: bool },
    /// `gen`: a trace is generated and printed.
    Gen(Size),
    /// `soak`: the same trace is generated and answered, and a summary is printed.
    Soak(Size),
    /// `--help`, or `-h`.
    Help(Page),
    /// `--version`, or `-V`.
    Version,
    /// No command.
    Unknown,
}

/// What the words of a parse name.
#[derive(Clone, Copy)]
pub(crate) struct Named<'a> {
    pub(crate) job: Option<&'a str>,
    pub(crate) key: Option<u64>,
    pub(crate) records: Option<u64>,
    pub(crate) cpus: Option<u64>,
    pub(crate) shows_state: bool,
}
