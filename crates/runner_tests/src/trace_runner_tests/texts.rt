//! What the program is to print of itself: how it is called, its version, and two pages of its help.

/// How it is called.
pub(super) const USAGE: &[u8] =
    b"usage: clockboard replay|race [--state] | gen|soak KEY RECORDS CPUS\n";

/// Its version.
pub(super) const VERSION: &[u8] = b"clockboard 0.1.0\n";

/// What it is, its jobs, and how it ends.
pub(super) const HELP: &[u8] = b"\
clockboard: the time hardware that a virtual machine monitor shows a PC guest\n\
\n\
usage: clockboard replay|race [--state] < TRACE\n\
\x20      clockboard gen|soak KEY RECORDS CPUS\n\
\n\
replay     answers a trace from standard input, record by record:\n\
\x20          replies, edges of the interrupt lines, and a final line\n\
race       the same, with each processor on a thread of its own\n\
gen        prints a generated trace: KEY is any number of 64 bits,\n\
\x20          RECORDS is 0 to 200000, CPUS is 1 to 16\n\
soak       answers that trace and prints: soak RECORDS EDGES TIME GREATEST\n\
--state    prints the board's saved state after the final line\n\
--help     prints this text; after a job, as 'replay --help', that job's page\n\
--version  prints the version\n\
\n\
exit status:\n\
\x20 0   the job was done; a trace was read to its line 'end'\n\
\x20 2   the words are no command\n\
\x20 3   a line is refused: it is outside the format or too long, the count\n\
\x20     of its processor falls, it asks for a processor or a register that\n\
\x20     isn't there, it is the 200001st record of a race, or the input ends\n\
\x20     before 'end'\n\
\x20 4   standard input failed\n\
\x20 5   standard output failed\n\
\x20 6   memory ran out\n\
\x20 7   a time is 2^59 ns or more\n\
\x20 8   the board has answered 2^62 accesses\n\
\x20 9   a page, or the wall clock's words, had its last version\n\
\x20 10  what the threads of a race gave back doesn't fit together\n\
\x20 11  the words are no text\n\
\n\
tools/explain TRACE shows the place in a line that is refused, and how to\n\
mend it. docs/FORMATS.md has the trace, the printed lines, the exit\n\
statuses and the saved state.\n\
";

/// The page of `gen`.
pub(super) const GEN_HELP: &[u8] = b"\
clockboard gen: prints a generated trace\n\
\n\
usage: clockboard gen KEY RECORDS CPUS\n\
\n\
KEY        a number of 64 bits; each gives a trace of its own\n\
RECORDS    0 to 200000: how many random records follow those that enable\n\
\x20          the pages and start the HPET\n\
CPUS       1 to 16 processors\n\
\n\
The same numbers print the same trace: 'clockboard gen 7 1000 2' has 1000\n\
records by two processors. No input is read.\n\
\n\
exit status: 0, 2, 5, 6; 'clockboard --help' has each\n\
docs/FORMATS.md tells how each record follows from KEY.\n\
";
