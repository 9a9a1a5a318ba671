// The texts of the program's help.

pub const ABOUT: &str = "A priority queue with a journal of its requests";

pub const SEQ_ABOUT: &str = "Carries out the commands of standard input on an empty priority queue";

pub const SEQ_HELP: &str = "\
Reads commands from standard input, one a line, and answers each with the number
of its journal line:

  push P V  puts in an item of priority P and value V, each 0 to 4294967295:
            `L pushed`
  push P    the same with the value 0
  pop       takes the least item out: `L got P V`, or `L empty`
  least     tells the least item: `L least P V`, or `L empty`

The least item is that of the least priority, and of equal priorities the one
that was pushed first.

Each of them takes a line of the journal, pops and leasts too. The journal has
room for 1024 lines, or for as many as --lines says, and a full one stays full:
each further answer is `book full`. Where memory for a push is refused the
answer is `no memory`. A request that is answered so has no line and changes
nothing.

With --wide P and V are 0 to 18446744073709551615 each, and items are ordered by
all of P. The answers and the journal are of the same form.

With --lasting the journal has room for 72057594037927936 lines, more than any
run comes to. Memory keeps the last 65536 of them, so no --journal can be
written, and --lines names no number.

Empty lines are skipped. The first refused line ends the run, after the answers
of those before it.

Where --journal names a FILE, the journal is written there after the whole
script, as `flatpq audit` reads it. A file that is there is replaced once the
whole is written.

The exit status is 0 after the whole script, 2 where the words of the command
line are refused, 3 where a line of the script is, 4 where memory is, and 6
after a failed read or write.

Example:
  printf 'push 5 70\\npush 3 80\\npop\\n' | flatpq seq
prints `1 pushed`, `2 pushed` and `3 got 3 80`.";

pub const LINES_HELP: &str = "How many lines the journal has room for, 1 to 1048576";

pub const WIDE_HELP: &str = "Priorities and values are 0 to 18446744073709551615";

pub const LASTING_HELP: &str = "The journal has room for 72057594037927936 lines";

pub const JOURNAL_HELP: &str = "Where the journal is written, a line each; - is standard output";

pub const STORE_HELP: &str =
    "What keeps the items: a leftist heap, a heap in one array, the quick one, or a sorted vector";

pub const WALK_ABOUT: &str = "Plays a schedule of comers on a grid of splitters";

pub const WALK_HELP: &str = "\
Reads a schedule from standard input and plays it on the triangular grid of
splitters (Moir and Anderson 1995), one single read or write a line:

  comer ID  a comer of this id takes part, 1 to 18446744073709551615; all comers
            come first, at most 64
  step ID   this comer takes its next step: `ID writes P`, `ID sees open P`,
            `ID sees closed P right Q`, `ID closes P`, `ID stops P`, or
            `ID reads X at P down Q`
  scan ID   this comer, which has stopped, reads the next door of its scan:
            `ID scans P closed`, or `ID scans P open`, and ` end` behind the
            scan's last

A scan reads the doors diagonal by diagonal, and ends behind a diagonal on which
none was closed. With --trail each scan is a trail scan: it reads the door of
place 0, and behind each closed door those of the places right of it and below.

P and Q are places, counted by diagonals. The grid opens at the first step or
scan, or at the end of input.

Empty lines are skipped. The first refused line ends the run, after the events
of those before it.

The exit status is 0 after the whole script, 2 where the words of the command
line are refused, 3 where a line of the script or the comers are, 4 where memory
is, and 6 after a failed read or write.

Example:
  printf 'comer 7\\nstep 7\\nstep 7\\nstep 7\\nstep 7\\nscan 7\\n' | flatpq walk
prints `7 writes 0`, `7 sees open 0`, `7 closes 0`, `7 stops 0` and
`7 scans 0 closed end`.";

pub const TRAIL_HELP: &str = "Scans read only the doors of places to which closed doors lead";

pub const LOAD_ABOUT: &str = "Has workers in threads push and pop on one queue, and audits it";

pub const LOAD_HELP: &str = "\
Starts W workers, each in a thread of its own, on one empty queue. Worker i
pushes P items of value i and of the priorities
  (7919 * j + 104729 * i) mod 1000003, j from 0 to P - 1,
and then pops Q times, which is no more than it has pushed. With --rounds it
does so R times: each round pushes the same items again. Then the queue is
closed, and the report tells what the workers were answered, and what is left:

  workers W
  pushed N            pushes that were answered
  got N               pops that took an item out
  empty N             pops that found no item
  left N              items that are left in the queue
  lines N             lines of its journal
  sum in N            the priorities pushed, added up
  sum out and left N  those taken out and those left, added up
  audit ok            or `audit failed`

The audit is ok where pushed is W times R times P, got and empty are W times R
times Q, left is pushed less got, lines are pushed, got and empty, and the two
sums are equal.

Up to 1048576 lines the journal has room for those of the load. Above, it has
room for 72057594037927936, of which memory keeps the last 65536.

Where --journal names a FILE, the journal of the queue is written there, as
`flatpq audit` reads it: behind the report, or, where memory doesn't keep all of
it, while the load runs, and then not to standard output. A file that is there
is replaced once the whole is written.

With --wide each priority and each value is 4294967297 times the one above, so
that both halves of its 64 bits are equal, and `flatpq audit --wide` reads the
journal.

With --progress it is told on standard error how far a load of many rounds is,
as `flatpq: 17 of 1000 rounds`, at most once a second.

The exit status is 0 where the audit is ok, 2 where the words of the command
line are refused, 4 where memory is, 5 where the audit failed or a worker could
not go on, and 6 after a failed write.

Example:
  flatpq load --workers 2 --pushes 3 --pops 2
reports `pushed 6`, `got 4`, `left 2` and, at the end, `audit ok`.";

pub const AUDIT_ABOUT: &str = "Says whether a journal is a lawful one";

pub const AUDIT_HELP: &str = "\
Reads a journal, a line each, from FILE or from standard input, and says whether
it is a lawful one. A line has its number, place, serial, request and reply:

  7 3 2 push 5 1 pushed    8 0 4 pop got 3 2    9 0 5 pop empty
  10 0 6 least least 3 2   11 0 7 least empty

It is lawful where its lines are numbered 1, 2, 3 and so on, the serials of each
place rise, and each reply is the one that a queue of one thread gives there: of
equal priorities the item that was pushed first comes out first. Then the report
tells what it adds up to:

  lines N             its lines
  places N            places that have a line
  pushed N            pushes
  got N               pops that took an item out
  empty N             pops that found no item
  left N              items that are left in the queue
  sum in N            the priorities pushed, added up
  sum out and left N  those taken out and those left, added up
  audit ok

A priority and a value are 0 to 4294967295 each, and with --wide 0 to
18446744073709551615. A journal doesn't say which: one that is lawful without
--wide is lawful with it, too.

Else the first line of which that is untrue is told, and how, as
`flatpq: line 7: got 5 1 where 3 2 came first`. Empty lines are skipped. Places
are 0 to 65535, numbers of lines and serials 1 to 72057594037927936.

The exit status is 0 where the journal is lawful, 2 where the words of the
command line are refused, 3 where a line is no journal line, 4 where memory is
refused, 5 where a line is not lawful, and 6 after a failed read or write.";

pub const FILE_HELP: &str = "The journal; standard input where none is named";

pub const WORKERS_HELP: &str = "How many workers there are, 1 to 64";

pub const PUSHES_HELP: &str = "How many items each worker pushes in a round, 1 to 8192";

pub const POPS_HELP: &str = "How many times each worker pops in a round, 0 to P";

pub const PROGRESS_HELP: &str = "Tells on standard error how many rounds are made";

pub const ROUNDS_HELP: &str = "How many rounds each worker makes, 1 to 1000000";
