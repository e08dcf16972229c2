//! What the program says of itself.
ghost use Rattle.std.specs.Prelude.{◌≡◌};
ghost use Rattle.trace_runner.specs.Text.{help_text};

use command_line::Page;

/// How it is called.
pub const USAGE: &[u8] = b"usage: clockboard replay|race [--state] | gen|soak KEY RECORDS CPUS\n";

/// Its version.
pub const VERSION: &[u8] = b"clockboard 0.1.0\n";

/// What it is, its jobs, and how it ends.
pub const HELP: &[u8] = b"\
clockboard: the time hardware that a virtual machine monitor shows a PC guest\n\
\n\
usage: clockboard replay|race [--state] < TRACE\n\
\x20      clockboard gen|soak KEY RECORDS CPUS\n\
\n\
replay     answers a trace from standard input, record by record:\n\
\x20          replies, edges of the interrupt lines, and a final line\n\
race       the same, with each processor on a thread of its own\n\
gen        prints a generated trace: KEY is any number of 64 bits,\n\
\x20          RECORDS is 0 to 200000, CPUS is 1 to 16\n\
soak       answers that trace and prints: soak RECORDS EDGES TIME GREATEST\n\
--state    prints the board's saved state after the final line\n\
--help     prints this text; after a job, as 'replay --help', that job's page\n\
--version  prints the version\n\
\n\
exit status:\n\
\x20 0   the job was done; a trace was read to its line 'end'\n\
\x20 2   the words are no command\n\
\x20 3   a line is refused: it is outside the format or too long, the count\n\
\x20     of its processor falls, it asks for a processor or a register that\n\
\x20     isn't there, it is the 200001st record of a race, or the input ends\n\
\x20     before 'end'\n\
\x20 4   standard input failed\n\
\x20 5   standard output failed\n\
\x20 6   memory ran out\n\
\x20 7   a time is 2^59 ns or more\n\
\x20 8   the board has answered 2^62 accesses\n\
\x20 9   a page, or the wall clock's words, had its last version\n\
\x20 10  what the threads of a race gave back doesn't fit together\n\
\x20 11  the words are no text\n\
\n\
tools/explain TRACE shows the place in a line that is refused, and how to\n\
mend it. docs/FORMATS.md has the trace, the printed lines, the exit\n\
statuses and the saved state.\n\
";

/// The page of `replay`.
pub const REPLAY_HELP: &[u8] = b"\
clockboard replay: answers a trace from standard input, record by record\n\
\n\
usage: clockboard replay [--state] < TRACE\n\
\n\
A trace is lines of text: a header, records, 'end'. This one sets counter 0\n\
of the 8254 to 4 pulses, waits 5000 ns and reads the counter:\n\
\n\
\x20 clockboard 1\n\
\x20 begin\n\
\x20 0 0 out 43 34\n\
\x20 0 0 out 40 04\n\
\x20 0 0 out 40 00\n\
\x20 0 5000 in 40\n\
\x20 end\n\
\n\
The first line names the format. Formats 2 to 5 add one after the other:\n\
eight HPET timers and 64 processors; timers of local APICs ('eoi', 'counts\n\
apicP'); the reference page of Hyper-V ('hv'); messages of HPET timers.\n\
\n\
A record is a processor, a count of the host's counter (nanoseconds, where\n\
no line 'host' says otherwise), and what is done. Each is answered by\n\
\n\
\x20 edge NS LINE up|down    for each edge of an interrupt line until then\n\
\x20 msg NS TIMER CPU VECTOR COUNT EVERY\n\
\x20                         for the messages of each timer until then: the first,\n\
\x20                         how many, and the nanoseconds from one to the next\n\
\x20 LINE NUMBER VALUE       the record's line, the number of the access, and\n\
\x20                         the value, if it reads one\n\
\n\
and the trace by 'final TIME ACCESSES GREATEST LINES'. A line that is\n\
refused ends the trace: 'refused LINE REASON'.\n\
\n\
--state    prints the board's saved state after the final line\n\
\n\
exit status: 0, 3 to 9; 'clockboard --help' has each\n\
tools/explain TRACE shows the place in a line that is refused.\n\
docs/FORMATS.md has all records, reasons and printed lines.\n\
";

/// The page of `race`.
pub const RACE_HELP: &[u8] = b"\
clockboard race: answers a trace with each processor on a thread of its own\n\
\n\
usage: clockboard race [--state] < TRACE\n\
\n\
The trace, of any of the formats 1 to 5, is read whole and checked, up to\n\
200000 records; the first line that is refused is printed alone. Meanwhile each\n\
phase runs, up to a save, a move or the end: a processor's records are\n\
answered in their order, and nothing orders those of different processors.\n\
What a phase prints is the lines of processor 0, then those of processor 1,\n\
and so on. The numbers of the accesses show in which order the board was\n\
asked.\n\
\n\
--state    prints the board's saved state after the final line\n\
\n\
exit status: 0, 3 to 9; 'clockboard --help' has each\n\
tools/explain TRACE shows the place in a line that is refused.\n\
docs/FORMATS.md has the trace and the printed lines.\n\
";

/// The page of `gen`.
pub const GEN_HELP: &[u8] = b"\
clockboard gen: prints a generated trace\n\
\n\
usage: clockboard gen KEY RECORDS CPUS\n\
\n\
KEY        a number of 64 bits; each gives a trace of its own\n\
RECORDS    0 to 200000: how many random records follow those that enable\n\
\x20          the pages and start the HPET\n\
CPUS       1 to 16 processors\n\
\n\
The same numbers print the same trace: 'clockboard gen 7 1000 2' has 1000\n\
records by two processors. No input is read.\n\
\n\
exit status: 0, 2, 5, 6; 'clockboard --help' has each\n\
docs/FORMATS.md tells how each record follows from KEY.\n\
";

/// The page of `soak`.
pub const SOAK_HELP: &[u8] = b"\
clockboard soak: answers a generated trace and prints one line\n\
\n\
usage: clockboard soak KEY RECORDS CPUS\n\
\n\
The trace is that of 'clockboard gen' with the same numbers. Printed is\n\
\n\
\x20 soak RECORDS EDGES TIME GREATEST\n\
\n\
the records, the edges of all interrupt lines, the nanosecond of the last\n\
record, and the greatest reading of the clock. No input is read.\n\
\n\
exit status: 0, 2, 5, 6; 'clockboard --help' has each\n\
docs/FORMATS.md tells how each record follows from KEY.\n\
";

/// A page of the help.
pub(crate) fn help(page: Page) -> &'static [u8]
    ensures { result.now ≡ help_text page }
{
    match page {
        Page::Overview => HELP,
        Page::OfReplay => REPLAY_HELP,
        Page::OfRace => RACE_HELP,
        Page::OfGen => GEN_HELP,
        Page::OfSoak => SOAK_HELP,
    }
}
