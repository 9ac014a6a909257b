//! The text of `abl --help`. Written by tools/explanations from tools/help.txt.

/// The text of `abl --help`.
pub const HELP: &str = "abl DATABASE create SCHEMA
abl DATABASE run SCHEMA STEPS MODE CLIENT...
abl DATABASE dump SCHEMA TABLE
abl DATABASE check SCHEMA PROG...
abl DATABASE bank START CLIENTS ACCOUNTS TRANSFERS

A database is three files: DATABASE.d0, DATABASE.b1 and DATABASE.b2. One command at
a time uses it; another one ends with status 5 and `in use by another process`.
What was committed is kept, also where the command is killed or the machine stops:
the next command recovers it. Copy the three files while no command uses them.

create makes a database of the schema file SCHEMA. It has no record, and each
sequence has its initial value.

run compiles the ABL source of each CLIENT, and runs 1 to 16 clients at the same
time over the database, which was created with SCHEMA. CLIENT is NAME=PROG or
NAME=PROG<INPUT, and no two have one NAME. Each client may spend STEPS units (1 to
999999999). IMPORT reads the file INPUT; without it the input is empty. Each file
may have 1 MiB (1048576 bytes). Put an argument with < in quotation marks, so that
a shell does not take it. A source includes other files by {file.i}; their names
are those of the folder in which abl runs.

Once all clients have ended, the output of each goes to standard output, in the
order of the arguments, and in MODE trace the lines of what they requested of the
database and were answered too; in MODE quiet nothing else.

dump writes the committed records of TABLE, a line each as EXPORT writes it, in
the order of the primary index of the table.

check lists the blocks of 1 to 16 sources and opens no database. Each block has
a line: its line number, what it is, `transaction` if it starts one, else `sub`
if it can be undone, else `plain`, and the buffers scoped to it.

bank measures a database with a built-in workload, and reads no file: the
database was created with examples/bank/bank.df. A client deletes all accounts
and creates ACCOUNTS accounts (2 to 10000) of 1000 each; then CLIENTS clients (1
to 8) make TRANSFERS transfers (1 to 50000) between them at the same time, which
a generator draws from START (0 to 2147483647); then a client prints the total,
and the sum of each balance times the number of its account. Both are the same
at each run of the same arguments.

How a command ended goes to standard error, with the status:

  0  all was done              6  standard output was not taken
  1  wrong arguments           7  out of memory
  2  a file cannot be read     8  a client ended in an error or a stop
  3  the schema breaks a rule  9  the database is not created, is created
  4  a source breaks a rule       already, or has another schema
  5  the disk failed           10 a file is too long

`usage at word N` counts the arguments after DATABASE from 0. Where arguments
are missing, N is the number of those that are there. A rule that is broken has
a letter and a number, and the line or the line:column where it is broken first,
with the name of the file before it where that is an include file:

  F  the schema file                           Y   its names and types
  E  the include files and &IF of the source   S   the scopes of its buffers
  L  its tokens                                U   its labels and blocks
  G  its grammar

abl --explain        the rules, statuses, stops and words of OpenEdge ABL that a
                     source cannot have, a line each
abl --explain NAME   the page of one: L1, 4 for a status, Deadlock for a stop,
                     CASE or can-find for a word, with how it is written here
abl --help           this text
abl --version        the version
";
