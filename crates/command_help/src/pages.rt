//! The pages. Written by tools/explanations from tools/explanations.txt and tools/words.txt.

static NAMES: [&str; 156] = [
    "E1",
    "E2",
    "E3",
    "E4",
    "E5",
    "E6",
    "E7",
    "L1",
    "L2",
    "L3",
    "L4",
    "L5",
    "G1",
    "G2",
    "Y1",
    "Y2",
    "Y3",
    "Y4",
    "Y5",
    "Y6",
    "Y7",
    "Y8",
    "Y9",
    "Y10",
    "Y11",
    "Y12",
    "Y13",
    "Y14",
    "S1",
    "S2",
    "S3",
    "S4",
    "U1",
    "U2",
    "U3",
    "U4",
    "U5",
    "U6",
    "U7",
    "F1",
    "F2",
    "F3",
    "F4",
    "F5",
    "F6",
    "F7",
    "F8",
    "F9",
    "F10",
    "F11",
    "F12",
    "0",
    "1",
    "2",
    "3",
    "4",
    "5",
    "6",
    "7",
    "8",
    "9",
    "10",
    "Statement",
    "Budget",
    "Depth",
    "OutputFull",
    "TraceFull",
    "TxFull",
    "Deadlock",
    "Closed",
    "ABSOLUTE",
    "ACCUMULATE",
    "ADD-INTERVAL",
    "ALERT-BOX",
    "AMBIGUOUS",
    "ASC",
    "AT",
    "BREAK BY",
    "BUFFER-COMPARE",
    "BUFFER-COPY",
    "BY",
    "CAN-FIND",
    "CAPS",
    "CASE",
    "CATCH",
    "CHR",
    "CLASS",
    "COLUMN-LABEL",
    "CONNECT",
    "CONTAINS",
    "DATASET",
    "DATE",
    "DATETIME",
    "DECIMALS",
    "DEFI",
    "DELIMITER",
    "DISPLAY",
    "EXCEPT",
    "EXTENT",
    "FILL",
    "FINALLY",
    "FRAME",
    "FUNCTION",
    "GET-MESSAGE",
    "HANDLE",
    "INDEX",
    "JOIN",
    "LC",
    "LIKE",
    "LOGICAL",
    "LONGCHAR",
    "LOOKUP",
    "MATCHES",
    "MAXIMUM",
    "MINIMUM",
    "MOD",
    "NEXT-VALUE",
    "NO-ECHO",
    "OF",
    "ON",
    "ON STOP",
    "OS-COMMAND",
    "OVERLAY",
    "PAGE",
    "PARAMETER",
    "PAUSE",
    "PRESELECT",
    "PRIVATE",
    "PUBLISH",
    "QUERY",
    "QUIT",
    "R-INDEX",
    "RANDOM",
    "REPLACE",
    "ROUND",
    "ROWID",
    "RUN",
    "SEEK",
    "SESSION",
    "SHARED",
    "SQRT",
    "SUBSTITUTE",
    "TEMP-TABLE",
    "THROUGH",
    "TIME",
    "TODAY",
    "TRIM",
    "TRUNCATE",
    "UNDEFINE",
    "UNFORMATTED",
    "UPDATE",
    "VALIDATE",
    "VALUE",
    "WAIT-FOR",
    "WEEKDAY",
    "WHEN",
];

/// The names of the pages: rules, statuses, stops and words of ABL that are not taken, in this order.
pub fn names() -> &'static [&'static str] {
    &NAMES
}

static SUMMARIES: [&str; 156] = [
    "A reference is open at the end of its text",
    "A reference says nothing",
    "A part of an `&IF` is missing, or `&THEN`, `&ELSEIF`, `&ELSE` or `&ENDIF` is where it may not be",
    "The condition of an `&IF` or `&ELSEIF` is none",
    "A 17th text would be open at once",
    "A limit of 1,048,576 bytes is passed",
    "A word begins with `&` and is none of `&SCOPED-DEFINE`, `&GLOBAL-DEFINE`, `&IF`, `&THEN`, `&ELSEIF`, `&ELSE` and `&ENDIF`",
    "A byte begins no token",
    "A comment is open at the end of the source",
    "A text is open at the end of the source",
    "A name, or one of the two parts of a name like Customer.Name, has more than 32 bytes",
    "A number has more than 18 digits before its point or more than 10 after it, leading and trailing zeros counted",
    "The grammar allows no program that begins so",
    "The source nests too deep",
    "A name means nothing at this place",
    "A field is named alone, and two buffers of the procedure have a field of this name",
    "A name is defined twice in one procedure, where variables, parameters, buffers and streams share their names",
    "The operands do not fit the operator, or the branches of an IF in an expression do not fit each other",
    "The kind of a value does not fit its target",
    "A condition after IF, WHILE or WHERE is no LOGICAL",
    "A function or a RUN has too few arguments (at its name), one too many (at that argument), one of a wrong kind, or one whose direction is not the parameter's",
    "A buffer or a stream is where a value or a target is expected, or a loop variable is no variable of kind INTEGER or INT64",
    "The field has a type that is not supported, or has an EXTENT above 0",
    "USE-INDEX names no usable index of the buffer's table",
    "A parameter is defined in the external procedure, or inside a block",
    "A mask after FORMAT or in STRING is no mask for a value of this kind",
    "The INITIAL value does not fit the kind of the variable or parameter, or is outside its range once it is rounded",
    "A source has more of something than its limit",
    "A FOR of a buffer is inside another FOR of the same buffer",
    "A DO FOR or REPEAT FOR of a buffer is inside the block to which free references of the buffer are scoped",
    "A DO FOR or REPEAT FOR of a buffer is inside a DO FOR, REPEAT FOR or FOR of it, or a FOR of a buffer inside a DO FOR or REPEAT FOR of it",
    "A buffer is twice in the list of one DO FOR or REPEAT FOR",
    "A label after UNDO, LEAVE, NEXT or RETRY names no block around the place",
    "A block has the label of a block around it",
    "UNDO names a block that cannot be undone",
    "NEXT is of a block that does not iterate, or no block around the place iterates",
    "The LEAVE or NEXT after an UNDO is of a block inside the one that is undone",
    "A phrase or an option is given twice, as TRANSACTION, WHILE, NO-ERROR or FORMAT",
    "The RETRY after an UNDO is of another block than the one that is undone",
    "A line begins with ADD, UPDATE, DROP or RENAME and is none of the four items",
    "A name is not a letter and then letters, digits and `# $ % & - _`, or has more than 32 bytes",
    "Two tables have one name",
    "A field or an index is of a table that no earlier line adds",
    "Two fields of a table have one name, in any case",
    "Two indexes of a table have one name, in any case",
    "INDEX-FIELD names no field of the table that comes before the index, or has not the form with ASCENDING or DESCENDING",
    "An index has no INDEX-FIELD, or has a field twice",
    "A second index of a table has PRIMARY",
    "The value of INITIAL, ORDER or EXTENT does not fit",
    "Two sequences have one name, in any case, or INCREMENT is 0 or no number of 64 bits",
    "The schema has more of something than its limit",
    "The command did its work",
    "The arguments are no command",
    "A file cannot be read",
    "The schema file breaks one of the rules F1 to F12",
    "The source breaks a rule",
    "The disk failed",
    "Standard output failed, as on a full device or a closed pipe",
    "Memory ran out",
    "The client ended in an error, by RETURN ERROR of the external procedure, or in a stop",
    "The database is not as the command needs it",
    "A file is longer than 1,048,576 bytes",
    "The client came to the statement STOP",
    "No unit is left",
    "A RUN would be the 33rd that is open",
    "The output of the client, named outputs included, would pass 16 MiB (16,777,216 bytes)",
    "The trace would pass 256 MiB, where an operation counts 64 bytes and what it carries",
    "A transaction would write more than 7,989 slots",
    "The client asks for a record that another client has locked, or for a key that another has reserved, and would wait for clients that wait for it, directly or not",
    "The disk failed at a step of this client or of another one, and the database is closed",
    "The value of a number without its sign",
    "Totals that a loop keeps",
    "A date some months or years later",
    "A message in a window of its own",
    "Whether FIND met more than one record",
    "The number of a character",
    "The column of an item in PUT",
    "Groups of records in a loop",
    "Whether two records have the same values",
    "The fields of one record into another",
    "The order of the records of FOR EACH",
    "Whether there is a record",
    "A text in capitals",
    "One of several branches, chosen by a value",
    "What is done about an error",
    "The character of a number",
    "Classes and objects",
    "Labels, helps and other options of a variable",
    "A connection to a database",
    "Records by the words of a field",
    "Data of several tables as one object",
    "The date that a text denotes",
    "A date with a time of day",
    "How many decimals a variable or a field keeps",
    "A keyword cut short",
    "Another delimiter than the blank in IMPORT and EXPORT",
    "Values on the screen",
    "All fields but some",
    "Arrays",
    "A text several times",
    "What is done however a block ends",
    "The layout of a screen",
    "A function of the source's own",
    "The text of a fault",
    "A reference to an object at run time",
    "The place of a text in another",
    "FOR over several tables",
    "A text in small letters",
    "A variable with the type of a field",
    "The LOGICAL that a text or number denotes",
    "Texts and bytes without a limit",
    "The place of an entry in a list",
    "Whether a text fits a pattern",
    "The greatest of some values",
    "The least of some values",
    "The remainder of a division",
    "A number of a sequence inside an expression",
    "Options of INPUT FROM and OUTPUT TO",
    "Records that share a field with another buffer's",
    "Triggers: what runs when something happens",
    "What is done about a stop",
    "Commands of the operating system",
    "A part of a text, replaced",
    "Pages of a report",
    "Parameters that are buffers, tables or handles",
    "A wait",
    "The records of a loop, found before it begins",
    "Options of a procedure",
    "Events that procedures subscribe to",
    "A set of records that is read to and fro",
    "The end of the session",
    "The last place of a text in another",
    "A number by chance",
    "A part of a text by another, wherever it is",
    "A number rounded to some decimals",
    "The identity of a record",
    "RUN of another file",
    "The place in an input or output",
    "What a source asks about its session",
    "Variables, buffers and streams of several files",
    "Roots and powers",
    "A text with values in their places",
    "A table of the program's own",
    "Output to a printer or another program",
    "The time of day",
    "The date of the day",
    "A text without the blanks around it",
    "A number cut after some decimals",
    "Words of the preprocessor that are not taken",
    "A whole line of the input",
    "Values that a user types",
    "A record checked before its block ends",
    "A name that is known only when the source runs",
    "A wait for events of the screen",
    "The day of the week",
    "An assignment under a condition",
];

/// The first sentence of each page, in the order of `names`.
pub fn summaries() -> &'static [&'static str] {
    &SUMMARIES
}

static TEXTS_0: [&str; 16] = [
    "E1: A reference is open at the end of its text: a `{` has no `}`. A `{` begins
a reference to a file, an argument or a name also inside a text between
quotes; only `~{` begins none. One on the line of a definition closes on that
line.

Refused at 1:19:

    MESSAGE \"a brace: {\".
                      ^

Close the reference, or write `~{` for a brace in a text.

    MESSAGE \"a brace: ~{\".
",
    "E2: A reference says nothing: it is empty, its file has the empty name, or an
argument after the file begins with `&` and is no `&NAME=value`. The inside is
expanded before it is read, so a reference that holds only a name without
value is empty too.

Refused at 1:18:

    MESSAGE \"braces: {}\".
                     ^

Write `{file.i}`, `{1}` or `{&NAME}`, and `&NAME=value` for an argument with a
name. Two braces in a text are `~{~}`.

    MESSAGE \"braces: ~{~}\".
",
    "E3: A part of an `&IF` is missing, or `&THEN`, `&ELSEIF`, `&ELSE` or `&ENDIF`
is where it may not be. An `&IF` has its words in its own file, and a
definition takes all of its line. `x&ENDIF` is a name: a blank or a sign is
before each of the words.

Refused at 1:1:

    &IF DEFINED(loud) &THEN
    ^
    MESSAGE \"done\".

Close each `&IF` with `&ENDIF`, in the same file, outside texts, comments,
references and the lines of definitions.

    &IF DEFINED(loud) &THEN
    MESSAGE \"done\".
    &ENDIF
",
    "E4: The condition of an `&IF` or `&ELSEIF` is none. It is `v`, `v = v` or `v
<> v`, with NOT before it or without, where v is a number without a sign, a
text between quotes or `DEFINED(NAME)`. A text alone is none, and so is a text
beside a number. References in it are expanded first, so `{&NAME}` without a
value is nothing.

Refused at 1:1:

    &IF {&level} = 2 &THEN
    ^
    MESSAGE \"two\".
    &ENDIF

Put the reference between quotes and compare texts, or test DEFINED first.

    &IF \"{&level}\" = \"2\" &THEN
    MESSAGE \"two\".
    &ENDIF
",
    "E5: A 17th text would be open at once: the source, the file that it includes,
the file that that one includes, and so on. The place is the reference. A file
that includes itself comes here, unless an `&IF` ends it. The source `a.p`
includes itself:

Refused at 1:1:

    {a.p}
    ^

Look which file includes one that is open already, and put what both need into
a file of its own.

    MESSAGE \"done\".
",
    "E6: A limit of 1,048,576 bytes is passed: by what the source or a file expands
to, or by the inside of a reference, the line of a definition or a condition,
expanded. Or the bytes of all files, each counted as often as it is opened,
and all bytes that these expansions give are more than 67,108,864 together.
The place is the byte or the reference with which the limit is passed.

Refused at 5:78:

    &GLOBAL-DEFINE a 0123456789abcdef
    &GLOBAL-DEFINE a {&a}{&a}{&a}{&a}{&a}{&a}{&a}{&a}{&a}{&a}{&a}{&a}{&a}{&a}{&a}{&a}
    &GLOBAL-DEFINE a {&a}{&a}{&a}{&a}{&a}{&a}{&a}{&a}{&a}{&a}{&a}{&a}{&a}{&a}{&a}{&a}
    &GLOBAL-DEFINE a {&a}{&a}{&a}{&a}{&a}{&a}{&a}{&a}{&a}{&a}{&a}{&a}{&a}{&a}{&a}{&a}
    &GLOBAL-DEFINE a {&a}{&a}{&a}{&a}{&a}{&a}{&a}{&a}{&a}{&a}{&a}{&a}{&a}{&a}{&a}{&a}
                                                                                 ^

Look for a value that is defined by itself, or a file that is included again
and again, and divide the source.

    &GLOBAL-DEFINE a 0123456789abcdef
    &GLOBAL-DEFINE a {&a}{&a}
",
    "E7: A word begins with `&` and is none of `&SCOPED-DEFINE`, `&GLOBAL-DEFINE`,
`&IF`, `&THEN`, `&ELSEIF`, `&ELSE` and `&ENDIF`; or one of the first two has
no name after it on its line. Case is ignored, and no word is shortened. An
`&` in a name begins none.

Refused at 1:1:

    &SCOPED limit 20
    ^
    MESSAGE {&limit}.

Write the word out. `abl --explain UNDEFINE` says what takes the place of the
other words.

    &SCOPED-DEFINE limit 20
    MESSAGE {&limit}.
",
    "L1: A byte begins no token. Outside texts and comments a source has names,
numbers, dates, texts, white space and the symbols `: , ( ) = <> < > <= >= + -
* / ? ^` and the period, which is one only before white space, a comment or
the end. So there is no `[` of an array and no name of three parts as a.b.c,
and `~{` and a `}` without its `{` are in texts and comments alone. At 1:1 the
usual cause is a byte order mark, which some editors put before the text.

Refused at 2:6:

    DEFINE VARIABLE i AS INTEGER.
    i = 1;
         ^

Remove the byte, or put it into a text. A statement ends with a period. Save
the file without a byte order mark. `abl --explain EXTENT` says what takes the
place of arrays.

    DEFINE VARIABLE i AS INTEGER.
    i = 1.
",
    "L2: A comment is open at the end of the source. The place is where the
outermost open one begins. Comments nest, so each `/*` needs its own `*/`.

Refused at 1:1:

    /* totals /* of each order */
    ^
    MESSAGE \"done\".

Close the comment. Look for a `/*` inside of it that has no `*/`.

    /* totals /* of each order */ */
    MESSAGE \"done\".
",
    "L3: A text is open at the end of the source. The place is its opening quote. A
text may go over several lines, so one quote that is missing takes in all that
follows up to the next quote.

Refused at 1:9:

    MESSAGE \"done.
            ^

Close the text with the quote that opens it. A quote inside a text is doubled.

    MESSAGE \"done\".
",
    "L4: A name, or one of the two parts of a name like Customer.Name, has more
than 32 bytes.

Refused at 1:17:

    DEFINE VARIABLE total-of-all-orders-of-a-customer AS DECIMAL.
                    ^

Shorten the name.

    DEFINE VARIABLE total-of-all-orders AS DECIMAL.
",
    "L5: A number has more than 18 digits before its point or more than 10 after
it, leading and trailing zeros counted; or a date is no day of the years 1 to
9999.

Refused at 1:9:

    MESSAGE 02/30/2024.
            ^

Write a date that there is, as month, day and year; shorten the number.

    MESSAGE 02/29/2024.
",
    "G1: The grammar allows no program that begins so: the tokens before the place
can begin one, with this token none does. The place is often one token after
the mistake, as where a period or an END is missing, or after a word of ABL
that is not taken here, as CASE, DISPLAY or CAN-FIND: such a word is read as a
name, and so is a function that is not taken. A keyword cannot be a name: a
variable cannot be called `date` or `label`.

Refused at 2:1:

    DEFINE VARIABLE i AS INTEGER
    i = 1.
    ^

Look at the statement before the place. docs/language.md ('Grammar') has all
statements and options. `abl --explain CASE` says how a word that is not taken
is written here.

    DEFINE VARIABLE i AS INTEGER.
    i = 1.
",
    "G2: The source nests too deep: this token opens a 65th statement inside 64
others, or a 65th of expressions, NOTs and signs inside 64 others. Each ELSE
IF is a statement inside the IF before it, and each bracket opens an
expression.

Refused at 1:257:

    {64*DO: }DO: {65*END. }
             ^

Put the inner part into an internal procedure, or a part of the expression
into a variable.

    {64*DO: }{64*END. }

{64*DO: } is `DO: ` 64 times; an @ in it is the number of the time, from 1,
and a | is the end of a line.
",
    "Y1: A name means nothing at this place: no variable, buffer, field, stream,
table, sequence or procedure of this name is known here. A definition holds
from its place on. A field is known alone, without `buffer.` before it, only
where the procedure names a buffer that has it, in FIND, FOR, CREATE or
another record statement. Words of ABL that are not taken are read as names,
as TODAY, VIEW-AS or ROUND.

Refused at 1:9:

    MESSAGE total.
            ^

Define the name before this place, or write it as it is spelt there; write
`buffer.field` for a field. `abl --explain TODAY` says how a word that is not
taken is written here.

    DEFINE VARIABLE total AS DECIMAL.
    MESSAGE total.
",
    "Y2: A field is named alone, and two buffers of the procedure have a field of
this name. All buffers count that the procedure names, also those named after
the place.

Refused at 3:9:

    FIND FIRST Customer.
    FIND FIRST Item.
    MESSAGE Name.
            ^

Write the buffer before the field.

    FIND FIRST Customer.
    FIND FIRST Item.
    MESSAGE Item.Name.
",
];

/// The texts of the pages from place 0 on.
fn texts_0() -> &'static [&'static str] {
    &TEXTS_0
}

static TEXTS_1: [&str; 16] = [
    "Y3: A name is defined twice in one procedure, where variables, parameters,
buffers and streams share their names; or a buffer has the name of a table; or
two internal procedures have one name. The place is the name in the later
definition.

Refused at 2:17:

    DEFINE VARIABLE i AS INTEGER.
    DEFINE VARIABLE i AS DECIMAL.
                    ^

Give one of them another name.

    DEFINE VARIABLE i AS INTEGER.
    DEFINE VARIABLE amount AS DECIMAL.
",
    "Y4: The operands do not fit the operator, or the branches of an IF in an
expression do not fit each other. The place is the operator, the sign, NOT or
IF. `+` takes two texts, two numbers, or a date and then a whole number.

Refused at 1:18:

    MESSAGE \"total \" + 1.
                     ^

Convert one operand: STRING makes a text of any value, INTEGER, INT64 and
DECIMAL make a number of a text.

    MESSAGE \"total \" + STRING(1).
",
    "Y5: The kind of a value does not fit its target. Any number fits a target that
is a number; else the kinds must be the same. A counting loop takes numbers,
and RETURN takes a text. The place is the first token of the value.

Refused at 2:5:

    DEFINE VARIABLE i AS INTEGER.
    i = \"12\".
        ^

Convert the value, or give the target the other kind.

    DEFINE VARIABLE i AS INTEGER.
    i = INTEGER(\"12\").
",
    "Y6: A condition after IF, WHILE or WHERE is no LOGICAL. The place is the first
token of the condition.

Refused at 2:4:

    DEFINE VARIABLE i AS INTEGER.
    IF i THEN MESSAGE \"some\".
       ^

Compare the value.

    DEFINE VARIABLE i AS INTEGER.
    IF i <> 0 THEN MESSAGE \"some\".
",
    "Y7: A function or a RUN has too few arguments (at its name), one too many (at
that argument), one of a wrong kind, or one whose direction is not the
parameter's. An OUTPUT or INPUT-OUTPUT argument must be a variable of exactly
the parameter's kind. A count after SKIP or SPACE is outside 1 to 99.

Refused at 1:9:

    MESSAGE SUBSTRING(\"total\").
            ^

Give the arguments that the function or the procedure takes. docs/language.md
('Names, types and values') lists them.

    MESSAGE SUBSTRING(\"total\", 2).
",
    "Y8: A buffer or a stream is where a value or a target is expected, or a loop
variable is no variable of kind INTEGER or INT64. After IMPORT and EXPORT a
buffer is its fields only where nothing else follows: `EXPORT Customer EXCEPT
Since` is refused at Customer.

Refused at 3:5:

    DEFINE VARIABLE i AS INTEGER.
    FIND FIRST Customer.
    i = Customer.
        ^

Name a field of the buffer.

    DEFINE VARIABLE i AS INTEGER.
    FIND FIRST Customer.
    i = Customer.CustNum.
",
    "Y9: The field has a type that is not supported, or has an EXTENT above 0. It
always holds `?` and cannot be named. IMPORT of the whole buffer passes over
its element, and EXPORT writes `?`.

Refused at 2:17:

    FIND FIRST Item.
    PUT UNFORMATTED Item.Sizes.
                    ^

Use other fields. docs/formats.md ('Items') says which types are supported.

    FIND FIRST Item.
    PUT UNFORMATTED Item.Name.
",
    "Y10: USE-INDEX names no usable index of the buffer's table. A word index and
an index on an unsupported field are not usable.

Refused at 1:31:

    FIND FIRST Customer USE-INDEX Words.
                                  ^

Name an index that the schema file has for this table, or leave USE-INDEX out:
the primary index is then used.

    FIND FIRST Customer USE-INDEX CustNum.
",
    "Y11: A parameter is defined in the external procedure, or inside a block. The
place is the word PARAMETER.

Refused at 1:14:

    DEFINE INPUT PARAMETER number AS INTEGER.
                 ^

Define parameters in an internal procedure, outside its blocks. An external
procedure has none here: it reads its input by IMPORT.

    PROCEDURE show:
      DEFINE INPUT PARAMETER number AS INTEGER.
      MESSAGE number.
    END.
    RUN show(1).
",
    "Y12: A mask after FORMAT or in STRING is no mask for a value of this kind.
docs/formats.md ('Masks') has the masks of each kind.

Refused at 1:20:

    MESSAGE STRING(12, \"x(3)\").
                       ^

Use a mask of the value's kind.

    MESSAGE STRING(12, \">>9\").
",
    "Y13: The INITIAL value does not fit the kind of the variable or parameter, or
is outside its range once it is rounded.

Refused at 1:38:

    DEFINE VARIABLE i AS INTEGER INITIAL \"one\".
                                         ^

Write a literal of the kind, or `?`.

    DEFINE VARIABLE i AS INTEGER INITIAL 1.
",
    "Y14: A source has more of something than its limit: 1,024 variables and
parameters, 64 buffers, 16 streams, or 16 different names of files after INPUT
FROM. The place is the first one too many.

Refused at 1025:17:

    {1024*DEFINE VARIABLE v@ AS INTEGER.|}DEFINE VARIABLE total AS INTEGER.
                                                          ^

Split the source, or use one variable for several purposes.

    {1023*DEFINE VARIABLE v@ AS INTEGER.|}DEFINE VARIABLE total AS INTEGER.

{64*DO: } is `DO: ` 64 times; an @ in it is the number of the time, from 1,
and a | is the end of a line.
",
    "S1: A FOR of a buffer is inside another FOR of the same buffer. Both would
move the one record of the buffer.

Refused at 2:3:

    FOR EACH Customer:
      FOR EACH Customer: END.
      ^
    END.

Give the inner FOR a buffer of its own.

    DEFINE BUFFER other FOR Customer.
    FOR EACH Customer:
      FOR EACH other: END.
    END.
",
    "S2: A DO FOR or REPEAT FOR of a buffer is inside the block to which free
references of the buffer are scoped. Here FIND is a free reference, and its
scope is the whole procedure.

Refused at 2:1:

    FIND FIRST Customer.
    DO FOR Customer:
    ^
    END.

Move the free references into the DO FOR, into a DO FOR of their own, or to
another buffer.

    DO FOR Customer:
      FIND FIRST Customer.
    END.
",
    "S3: A DO FOR or REPEAT FOR of a buffer is inside a DO FOR, REPEAT FOR or FOR
of it, or a FOR of a buffer inside a DO FOR or REPEAT FOR of it. The place is
the inner block.

Refused at 2:3:

    DO FOR Customer:
      FOR EACH Customer: END.
      ^
    END.

Leave out the list of the outer block, or give the inner one a buffer of its
own.

    DO:
      FOR EACH Customer: END.
    END.
",
    "S4: A buffer is twice in the list of one DO FOR or REPEAT FOR. The place is
the second name.

Refused at 1:18:

    DO FOR Customer, Customer:
                     ^
    END.

Name it once.

    DO FOR Customer:
    END.
",
];

/// The texts of the pages from place 16 on.
fn texts_1() -> &'static [&'static str] {
    &TEXTS_1
}

static TEXTS_2: [&str; 16] = [
    "U1: A label after UNDO, LEAVE, NEXT or RETRY names no block around the place.
The place is the label. An ON phrase may name its own block.

Refused at 2:8:

    REPEAT:
      UNDO order, LEAVE.
           ^
    END.

Label the block, or leave the label out: UNDO is then of the innermost block
that can be undone.

    order: REPEAT:
      UNDO order, LEAVE.
    END.
",
    "U2: A block has the label of a block around it. The place is the inner label.
Two blocks that are not one in the other may have one label.

Refused at 2:3:

    order: DO:
      order: DO: END.
      ^
    END.

Give one of them another label.

    order: DO:
      line: DO: END.
    END.
",
    "U3: UNDO names a block that cannot be undone. A procedure, a REPEAT, a FOR,
and a DO with TRANSACTION, ON ERROR or ON ENDKEY can be undone, and no other
DO.

Refused at 2:8:

    order: DO:
      UNDO order, LEAVE.
           ^
    END.

Write TRANSACTION, ON ERROR or ON ENDKEY in the header of the DO.

    order: DO TRANSACTION:
      UNDO order, LEAVE.
    END.
",
    "U4: NEXT is of a block that does not iterate, or no block around the place
iterates. REPEAT, FOR, and a DO with TO or WHILE iterate.

Refused at 1:1:

    NEXT.
    ^

Use LEAVE, or let the block iterate.

    DEFINE VARIABLE i AS INTEGER.
    DO i = 1 TO 3:
      NEXT.
    END.
",
    "U5: The LEAVE or NEXT after an UNDO is of a block inside the one that is
undone. That block has been left by then.

Refused at 3:23:

    order: REPEAT:
      line: REPEAT:
        UNDO order, LEAVE line.
                          ^
      END.
    END.

Name the block that is undone, or one around it.

    order: REPEAT:
      line: REPEAT:
        UNDO order, LEAVE order.
      END.
    END.
",
    "U6: A phrase or an option is given twice, as TRANSACTION, WHILE, NO-ERROR or
FORMAT; two lock options are given; or FIND CURRENT has WHERE or USE-INDEX.
The place is the first word of the later one.

Refused at 1:16:

    DO TRANSACTION TRANSACTION:
                   ^
    END.

Remove one of them.

    DO TRANSACTION:
    END.
",
    "U7: The RETRY after an UNDO is of another block than the one that is undone.
The place is the label after RETRY.

Refused at 3:22:

    order: REPEAT:
      line: REPEAT:
        UNDO line, RETRY order.
                         ^
      END.
    END.

Undo the block that is to be tried again.

    order: REPEAT:
      IF RETRY THEN LEAVE order.
      line: REPEAT:
        UNDO order, RETRY order.
      END.
    END.
",
    "F1: A line begins with ADD, UPDATE, DROP or RENAME and is none of the four
items: ADD TABLE, ADD FIELD, ADD INDEX, ADD SEQUENCE. Nothing may follow the
form on its line. So an incremental dump is refused.

Refused at line 2:

    ADD TABLE \"Item\"
    ADD VIEW \"Stock\"
    ^

Dump the whole definitions, and remove views.

    ADD TABLE \"Item\"
",
    "F2: A name is not a letter and then letters, digits and `# $ % & - _`, or has
more than 32 bytes.

Refused at line 1:

    ADD TABLE \"1st\"
    ^

Give the table, field, index or sequence another name.

    ADD TABLE \"First\"
",
    "F3: Two tables have one name; letters of either case are the same in a name.
The line is that of the later one.

Refused at line 2:

    ADD TABLE \"Item\"
    ADD TABLE \"item\"
    ^

Remove one of the tables, or give it another name.

    ADD TABLE \"Item\"
",
    "F4: A field or an index is of a table that no earlier line adds. Where the
table's own line is the first of the file, the usual cause is a byte order
mark before it, which makes it a line that is skipped.

Refused at line 1:

    ADD FIELD \"ItemNum\" OF \"Item\" AS integer
    ^

Put ADD TABLE before the line. Save the file without a byte order mark.

    ADD TABLE \"Item\"
    ADD FIELD \"ItemNum\" OF \"Item\" AS integer
",
    "F5: Two fields of a table have one name, in any case. Fields of unsupported
types count too. The line is that of the later one.

Refused at line 3:

    ADD TABLE \"Item\"
    ADD FIELD \"ItemNum\" OF \"Item\" AS integer
    ADD FIELD \"ItemNum\" OF \"Item\" AS character
    ^

Remove one of the fields, or give it another name.

    ADD TABLE \"Item\"
    ADD FIELD \"ItemNum\" OF \"Item\" AS integer
",
    "F6: Two indexes of a table have one name, in any case. Indexes that are
skipped count too. The line is that of the later one.

Refused at line 5:

    ADD TABLE \"Item\"
    ADD FIELD \"ItemNum\" OF \"Item\" AS integer
    ADD INDEX \"ByNum\" ON \"Item\"
      INDEX-FIELD \"ItemNum\" ASCENDING
    ADD INDEX \"ByNum\" ON \"Item\"
    ^
      INDEX-FIELD \"ItemNum\" DESCENDING

Remove one of the indexes, or give it another name.

    ADD TABLE \"Item\"
    ADD FIELD \"ItemNum\" OF \"Item\" AS integer
    ADD INDEX \"ByNum\" ON \"Item\"
      INDEX-FIELD \"ItemNum\" ASCENDING
",
    "F7: INDEX-FIELD names no field of the table that comes before the index, or
has not the form with ASCENDING or DESCENDING.

Refused at line 4:

    ADD TABLE \"Item\"
    ADD FIELD \"ItemNum\" OF \"Item\" AS integer
    ADD INDEX \"ByNum\" ON \"Item\"
      INDEX-FIELD \"ItemNum\"
    ^

Add the field before the index, and the direction after the field.

    ADD TABLE \"Item\"
    ADD FIELD \"ItemNum\" OF \"Item\" AS integer
    ADD INDEX \"ByNum\" ON \"Item\"
      INDEX-FIELD \"ItemNum\" ASCENDING
",
    "F8: An index has no INDEX-FIELD, or has a field twice. The line is the first
one of the index.

Refused at line 3:

    ADD TABLE \"Item\"
    ADD FIELD \"ItemNum\" OF \"Item\" AS integer
    ADD INDEX \"ByNum\" ON \"Item\"
    ^

Give the index its fields, each once.

    ADD TABLE \"Item\"
    ADD FIELD \"ItemNum\" OF \"Item\" AS integer
    ADD INDEX \"ByNum\" ON \"Item\"
      INDEX-FIELD \"ItemNum\" ASCENDING
",
    "F9: A second index of a table has PRIMARY. Indexes that are skipped count too.
The line is that of the second PRIMARY.

Refused at line 7:

    ADD TABLE \"Item\"
    ADD FIELD \"ItemNum\" OF \"Item\" AS integer
    ADD INDEX \"ByNum\" ON \"Item\"
      PRIMARY
      INDEX-FIELD \"ItemNum\" ASCENDING
    ADD INDEX \"ByNumDown\" ON \"Item\"
      PRIMARY
    ^
      INDEX-FIELD \"ItemNum\" DESCENDING

Keep PRIMARY at one index of each table.

    ADD TABLE \"Item\"
    ADD FIELD \"ItemNum\" OF \"Item\" AS integer
    ADD INDEX \"ByNum\" ON \"Item\"
      PRIMARY
      INDEX-FIELD \"ItemNum\" ASCENDING
    ADD INDEX \"ByNumDown\" ON \"Item\"
      INDEX-FIELD \"ItemNum\" DESCENDING
",
];

/// The texts of the pages from place 32 on.
fn texts_2() -> &'static [&'static str] {
    &TEXTS_2
}

static TEXTS_3: [&str; 16] = [
    "F10: The value of INITIAL, ORDER or EXTENT does not fit: INITIAL is no value
of the field's type or of a sequence, ORDER or EXTENT no number up to
2147483647.

Refused at line 3:

    ADD TABLE \"Item\"
    ADD FIELD \"ItemNum\" OF \"Item\" AS integer
      INITIAL \"none\"
    ^

Write a value of the field's type; docs/formats.md ('What it means') has the
forms.

    ADD TABLE \"Item\"
    ADD FIELD \"ItemNum\" OF \"Item\" AS integer
      INITIAL \"0\"
",
    "F11: Two sequences have one name, in any case, or INCREMENT is 0 or no number
of 64 bits. The line is that of the later sequence, or of INCREMENT.

Refused at line 2:

    ADD SEQUENCE \"NextOrder\"
      INCREMENT 0
    ^

Give the sequence another name, or an increment other than 0.

    ADD SEQUENCE \"NextOrder\"
      INCREMENT 1
",
    "F12: The schema has more of something than its limit: 256 tables, 256 fields
of a table, 256 sequences, 32 indexes of a table, 16 fields of an index, or
1,048,576 bytes of canonical text. The line is the first one of the item that
is too many.

Refused at line 257:

    {256*ADD TABLE \"t@\"|}ADD TABLE \"t257\"
                         ^

Leave out tables that no source names.

    {256*ADD TABLE \"t@\"|}

{64*DO: } is `DO: ` 64 times; an @ in it is the number of the time, from 1,
and a | is the end of a line.
",
    "status 0: The command did its work: every client ended normally or by RETURN,
and standard output took the whole report.

    abl shop run orders.df 10 quiet a=a.p

where a.p is

    MESSAGE \"done\".

It prints nothing on standard error.
",
    "status 1: The arguments are no command. `usage at word N` names the first
argument that is wrong, counted from 0 after DATABASE; where arguments are
missing, N is the number of those that are there.

    abl shop run orders.df 0 quiet a=a.p

where a.p is

    MESSAGE \"done\".

It prints on standard error

    abl: usage at word 2

Here word 2, the number of units, must be 1 to 999999999. `abl --help` shows
the form.
",
    "status 2: A file cannot be read: it is not there, it is a directory, or
reading failed. The files are read in this order: the schema file, the source,
the client's input, and then those that the source names after INPUT FROM.

    abl shop run missing.df 10 quiet a=a.p

where a.p is

    MESSAGE \"done\".

It prints on standard error

    abl: cannot read missing.df

Give the name of a file, from the folder in which the command runs.
",
    "status 3: The schema file breaks one of the rules F1 to F12; the line says
which, and at which line of the file. Or `dump` names a table that the schema
does not have: then it is `no table` with the name.

    abl shop run bad.df 10 quiet a=a.p

where a.p is

    MESSAGE \"done\".

where bad.df is

    ADD TABLE \"Item\"
    ADD TABLE \"item\"

It prints on standard error

    abl: schema F3 at line 2

See the page of the rule.
",
    "status 4: The source breaks a rule: the first of L1 to L5, else of G1 and G2,
else of Y1 to Y14, else of S1 to S4, else of U1 to U7. The line has the
client's name, the rule, and the line and column, which count from 1, columns
in bytes.

    abl shop run orders.df 10 quiet a=a.p

where a.p is

    MESSAGE total.

It prints on standard error

    abl: a: Y1 at 1:9

See the page of the rule. Nothing was run.
",
    "status 5: The disk failed; a second line names the file and why, as `in use by
another process`, or `missing, but another file of the database is not empty`:
then nothing was written; put the file back. What was committed before is
kept; of a commit under way it is not known. After a run the report is
printed, and each client that asked for more later has stopped with Closed.

    abl missing/shop create orders.df

where a.p is

    MESSAGE \"done\".

It prints on standard error

    abl: disk
    abl: missing/shop.d0: No such file or directory (os error 2)

Here there is no folder `missing`. Look at the file, and at the room on its
disk; one command at a time uses a database. The next command recovers it.
",
    "status 6: Standard output failed, as on a full device or a closed pipe. What
is there is a beginning of the report; the run itself was done.

    abl shop run orders.df 10 quiet a=a.p

where a.p is

    MESSAGE \"done\".

and standard output is /dev/full

It prints on standard error

    abl: output

Make room, and run the command again.
",
    "status 7: Memory ran out. What is on standard output is a beginning of the
report, or nothing. It may come at any command; with ample memory it does not.

Give the process more memory, or run a smaller source.
",
    "status 8: The client ended in an error, by RETURN ERROR of the external
procedure, or in a stop. Its report is printed; the line on standard error
says which it was. A stop has one of the names Statement, Budget, Depth,
OutputFull, TraceFull, TxFull, Deadlock and Closed.

    abl shop run orders.df 10 quiet a=a.p

where a.p is

    RETURN ERROR \"no orders\".

It prints on standard error

    abl: client a: error no orders

What was not committed was undone. See the page of the stop.
",
    "status 9: The database is not as the command needs it. `not created`: there is
no whole database of this name. No file was changed; copy the files, if there
are any, before `create` makes a new one in them. `already created`: there is
one, which `create` leaves as it is. `schema differs`: there is one, and it
was created with a schema file that says something else.

    abl shop create orders.df

where a.p is

    MESSAGE \"done\".

It prints on standard error

    abl: already created

Give another name of a database, or the schema file that it was created with.
",
    "status 10: A file is longer than 1,048,576 bytes: the schema file, the source,
the client's input, or a file after INPUT FROM. The line names it.

    abl shop run orders.df 10 quiet a=a.p

where a.p is

    {1048577* }

It prints on standard error

    abl: a.p is longer than 1048576 bytes

Split the file. For an input docs/for-abl-programmers.md ('How records get
into a database') has the commands.

{64*DO: } is `DO: ` 64 times; an @ in it is the number of the time, from 1,
and a | is the end of a line.
",
    "stop Statement: The client came to the statement STOP. What was not committed
was undone, and the report has what was written before.

Stops at 2:1:

    MESSAGE \"before\".
    STOP.
    ^

Use RETURN where the procedure is to end without a stop.
",
    "stop Budget: No unit is left. Each statement, each iteration of a block and
each operation on the database but the last takes one; docs/language.md ('What
a client does', Units) has the rule. The number of units is an argument of the
command.

Stops at 2:3:

    REPEAT:
      MESSAGE \"again\".
      ^
    END.

Give more units, or look for a loop that does not end: RETRY in a block that
does not name RETRY is NEXT.
",
];

/// The texts of the pages from place 48 on.
fn texts_3() -> &'static [&'static str] {
    &TEXTS_3
}

static TEXTS_4: [&str; 16] = [
    "stop Depth: A RUN would be the 33rd that is open: 32 internal procedures have
begun and have not ended. The external procedure does not count.

Stops at 2:3:

    PROCEDURE again:
      RUN again.
      ^
    END.
    RUN again.

End the recursion earlier, or write a loop.
",
    "stop OutputFull: The output of the client, named outputs included, would pass
16 MiB (16,777,216 bytes). The piece that does not fit is not written.

Stops at 7:3:

    DEFINE VARIABLE t AS CHARACTER.
    t = \"0123456789\".
    DO WHILE LENGTH(t) <= 15000:
      t = t + t.
    END.
    REPEAT:
      PUT UNFORMATTED t.
      ^
    END.

Write less, or split the work over several commands.
",
    "stop TraceFull: The trace would pass 256 MiB, where an operation counts 64
bytes and what it carries. It is counted in mode `quiet` too.

Split the work over several commands.
",
    "stop TxFull: A transaction would write more than 7,989 slots. A record is
stored in one slot for each 240 bytes, and a change writes each of its slots;
what was undone inside the transaction counts too.

Stops at 5:5:

    DEFINE VARIABLE i AS INTEGER NO-UNDO.
    DO TRANSACTION:
      DO i = 1 TO 8000:
        CREATE Item.
        Item.ItemNum = i.
        ^
      END.
    END.

Use smaller transactions: here one for each record.

    DEFINE VARIABLE i AS INTEGER NO-UNDO.
    DO i = 1 TO 8000 TRANSACTION:
      CREATE Item.
      Item.ItemNum = i.
    END.
",
    "stop Deadlock: The client asks for a record that another client has locked, or
for a key that another has reserved, and would wait for clients that wait for
it, directly or not. It stops at once, and what it had not committed is
undone, so that the others can go on. Below two clients run one source, one
with the input 1 and one with the input 2: each has one record and asks for
the other's.

Stops at 11:3:

    DEFINE VARIABLE mine AS INTEGER NO-UNDO.
    DEFINE VARIABLE n AS INT64 NO-UNDO.
    IMPORT mine.
    DO TRANSACTION:
      CREATE Item.
      Item.ItemNum = mine.
      n = NEXT-VALUE(NextOrder).
      DO WHILE n < 2: /* until both have their record */
        n = CURRENT-VALUE(NextOrder).
      END.
      FIND Item WHERE Item.ItemNum = 3 - mine SHARE-LOCK.
      ^
    END.

Lock records in the same order in every source, or end the transaction before
the next lock.
",
    "stop Closed: The disk failed at a step of this client or of another one, and
the database is closed: each further request is answered so. What was
committed before is kept; of the commit that was under way it is not known.
The status is then 5.
",
    "ABSOLUTE: The value of a number without its sign

In OpenEdge: ABSOLUTE(n) gives n, or - n where n is negative.

Refused by Y1 at 2:9:

    DEFINE VARIABLE n AS DECIMAL INITIAL -2.5.
    MESSAGE ABSOLUTE(n).
            ^

Here: An IF in the expression.

    DEFINE VARIABLE n AS DECIMAL INITIAL -2.5.
    n = IF n < 0 THEN - n ELSE n.
    MESSAGE n.

It prints

    2.5
",
    "ACCUMULATE: Totals that a loop keeps

In OpenEdge: ACCUMULATE x (TOTAL) in a loop keeps a sum, which ACCUM TOTAL x
gives after it; COUNT, AVERAGE, MINIMUM and MAXIMUM are kept so too.

Refused by G1 at 2:14:

    FOR EACH Customer NO-LOCK:
      ACCUMULATE Customer.Balance (TOTAL).
                 ^
    END.

Here: A NO-UNDO variable for each total.

    DEFINE VARIABLE total AS DECIMAL NO-UNDO.
    DEFINE VARIABLE customers AS INTEGER NO-UNDO.
    FOR EACH Customer NO-LOCK:
      total = total + Customer.Balance.
      customers = customers + 1.
    END.
    MESSAGE total total / customers.

It prints

    52.5 17.5
",
    "ADD-INTERVAL: A date some months or years later

In OpenEdge: ADD-INTERVAL(d, n, \"months\") moves a date by n years, months or
days; INTERVAL counts these between two dates.

Refused by G1 at 1:32:

    MESSAGE ADD-INTERVAL(11/15/2026, 2, \"months\").
                                   ^

Here: Days are added by `+` and counted by `-`. Months are added by
DATE(month, day, year); a day that the month does not have is a fault.

    DEFINE VARIABLE due AS DATE INITIAL 11/15/2026.
    DEFINE VARIABLE m AS INTEGER.
    MESSAGE due + 14.
    m = MONTH(due) + 2.
    IF m > 12 THEN due = DATE(m - 12, DAY(due), YEAR(due) + 1).
    ELSE due = DATE(m, DAY(due), YEAR(due)).
    MESSAGE due.

It prints

    11/29/26
    01/15/27
",
    "ALERT-BOX: A message in a window of its own

In OpenEdge: MESSAGE .. VIEW-AS ALERT-BOX shows the texts in a window and
waits until the user closes it.

Refused by Y1 at 1:16:

    MESSAGE \"done\" VIEW-AS ALERT-BOX.
                   ^

Here: MESSAGE alone writes a line to the output of the client. A run has no
screen and waits for nobody.

    MESSAGE \"done\".

It prints

    done
",
    "AMBIGUOUS: Whether FIND met more than one record

In OpenEdge: After FIND .. NO-ERROR, AMBIGUOUS Customer is yes where several
records fit, and no where none does.

Refused by Y1 at 2:9:

    FIND Customer WHERE Customer.City = \"Boston\" NO-LOCK NO-ERROR.
    MESSAGE AMBIGUOUS Customer.
            ^

Here: FIND FIRST and FIND NEXT with the same WHERE show whether there is a
second record.

    FIND FIRST Customer WHERE Customer.City = \"Boston\" NO-LOCK.
    FIND NEXT Customer WHERE Customer.City = \"Boston\" NO-LOCK NO-ERROR.
    MESSAGE AVAILABLE Customer.

It prints

    yes
",
    "ASC: The number of a character

In OpenEdge: ASC(\"A\") gives 65, the number of the character in the code page.

Refused by Y1 at 1:9:

    MESSAGE ASC(\"D\").
            ^

Here: The place of the character in a text of those that matter. A comparison
ignores case.

    DEFINE VARIABLE letters AS CHARACTER INITIAL \"ABCDEFGHIJKLMNOPQRSTUVWXYZ\".
    DEFINE VARIABLE i AS INTEGER.
    DO i = 1 TO LENGTH(letters):
      IF SUBSTRING(letters, i, 1) = \"D\" THEN MESSAGE 64 + i.
    END.

It prints

    68
",
    "AT: The column of an item in PUT

In OpenEdge: PUT x AT 20 writes x from column 20 on, and PUT x TO 20 so that
it ends there.

Refused by Y1 at 1:25:

    PUT UNFORMATTED \"total\" AT 10.
                            ^

Here: A FORMAT gives each item its width, and SPACE(n) writes blanks between
them.

    FOR EACH Customer NO-LOCK:
      PUT SPACE(3) Customer.CustNum FORMAT \">>9\" SPACE(2) Customer.Name FORMAT \"x(12)\" Customer.Balance FORMAT \">>9.99\" SKIP.
    END.

It prints

         1  Lift Tours   40.50
         2  Aerobics     12.00
         3  Hoops         0.00
",
    "BREAK BY: Groups of records in a loop

In OpenEdge: FOR EACH .. BREAK BY field sorts the records into groups;
FIRST-OF(field) and LAST-OF(field) say where one begins and ends.

Refused by G1 at 1:30:

    FOR EACH Order NO-LOCK BREAK BY Order.CustNum:
                                 ^

Here: Read by an index that begins with the field, and keep its last value in
a NO-UNDO variable. What ends a group is written where the next one begins,
and once after the loop.

    DEFINE VARIABLE who AS INTEGER INITIAL ? NO-UNDO.
    DEFINE VARIABLE subtotal AS DECIMAL NO-UNDO.
    FOR EACH Order USE-INDEX CustOrder NO-LOCK:
      IF who <> Order.CustNum THEN DO:
        IF who <> ? THEN MESSAGE who subtotal.
        ASSIGN who = Order.CustNum subtotal = 0.
      END.
      subtotal = subtotal + Order.Total.
    END.
    MESSAGE who subtotal.

It prints

    1 30.25
    2 5.5
",
    "BUFFER-COMPARE: Whether two records have the same values

In OpenEdge: BUFFER-COMPARE a TO b SAVE result compares the fields of the same
names.

Refused by G1 at 2:16:

    DEFINE BUFFER other FOR Customer.
    BUFFER-COMPARE Customer TO other.
                   ^

Here: A comparison of each field that matters.

    DEFINE BUFFER other FOR Customer.
    FIND FIRST Customer NO-LOCK.
    FIND LAST other NO-LOCK.
    IF Customer.City = other.City THEN MESSAGE \"the same city\".
    IF Customer.Name = other.Name THEN MESSAGE \"the same name\".

It prints

    the same city
",
    "BUFFER-COPY: The fields of one record into another

In OpenEdge: BUFFER-COPY a EXCEPT field TO b copies the fields of the same
names.

Refused by G1 at 2:13:

    DEFINE BUFFER copied FOR Customer.
    BUFFER-COPY Customer TO copied.
                ^

Here: ASSIGN with each field.

    DEFINE BUFFER copied FOR Customer.
    FIND FIRST Customer NO-LOCK.
    CREATE copied.
    ASSIGN copied.CustNum = 4 copied.Name = Customer.Name copied.City = Customer.City.
    MESSAGE copied.CustNum copied.Name.

It prints

    4 Lift Tours
",
];

/// The texts of the pages from place 64 on.
fn texts_4() -> &'static [&'static str] {
    &TEXTS_4
}

static TEXTS_5: [&str; 16] = [
    "BY: The order of the records of FOR EACH

In OpenEdge: FOR EACH .. BY field reads the records in the order of the field,
with DESCENDING from the greatest to the least.

Refused by G1 at 1:27:

    FOR EACH Customer NO-LOCK BY Customer.Name:
                              ^

Here: USE-INDEX of an index that begins with the field; FIND LAST and FIND
PREV with it read from the greatest on.

    FOR EACH Customer USE-INDEX Name NO-LOCK:
      MESSAGE Customer.Name.
    END.
    FIND LAST Customer USE-INDEX Name NO-LOCK.
    DO WHILE AVAILABLE Customer:
      MESSAGE Customer.CustNum.
      FIND PREV Customer USE-INDEX Name NO-LOCK NO-ERROR.
    END.

It prints

    Aerobics
    Hoops
    Lift Tours
    1
    3
    2
",
    "CAN-FIND: Whether there is a record

In OpenEdge: CAN-FIND(FIRST Order WHERE ..) is yes where such a record is
there; it reads none into the buffer.

Refused by G1 at 1:12:

    IF CAN-FIND(FIRST Order WHERE Order.CustNum = 3) THEN MESSAGE \"has orders\".
               ^

Here: FIND with NO-LOCK and NO-ERROR, and AVAILABLE. A buffer of its own
leaves the record of the other buffer there.

    DEFINE BUFFER sought FOR Order.
    FOR EACH Customer NO-LOCK:
      FIND FIRST sought WHERE sought.CustNum = Customer.CustNum NO-LOCK NO-ERROR.
      IF NOT AVAILABLE sought THEN MESSAGE Customer.Name \"has no order\".
    END.

It prints

    Hoops has no order
",
    "CAPS: A text in capitals

In OpenEdge: CAPS(t) gives t with its letters in capitals.

Refused by Y1 at 1:9:

    MESSAGE CAPS(\"shop 4\").
            ^

Here: Comparisons, BEGINS and indexes ignore case, so it is seldom needed.
Where capitals are to be written, look up each letter.

    DEFINE VARIABLE letters AS CHARACTER INITIAL \"ABCDEFGHIJKLMNOPQRSTUVWXYZ\".
    DEFINE VARIABLE c AS CHARACTER.
    DEFINE VARIABLE i AS INTEGER.
    DEFINE VARIABLE k AS INTEGER.
    DO i = 1 TO LENGTH(\"shop 4\"):
      c = SUBSTRING(\"shop 4\", i, 1).
      DO k = 1 TO 26:
        IF SUBSTRING(letters, k, 1) = c THEN c = SUBSTRING(letters, k, 1).
      END.
      PUT UNFORMATTED c.
    END.

It prints

    SHOP 4
",
    "CASE: One of several branches, chosen by a value

In OpenEdge: CASE value: WHEN \"a\" THEN .. OTHERWISE .. END CASE runs the first
branch whose value equals the one after CASE.

Refused by G1 at 2:6:

    DEFINE VARIABLE grade AS CHARACTER INITIAL \"b\".
    CASE grade:
         ^

Here: IF .. ELSE IF. Each ELSE IF is a statement inside the IF before it, and
64 may be open.

    DEFINE VARIABLE grade AS CHARACTER INITIAL \"b\".
    IF grade = \"a\" THEN MESSAGE \"ten percent\".
    ELSE IF grade = \"b\" OR grade = \"c\" THEN MESSAGE \"five percent\".
    ELSE MESSAGE \"none\".

It prints

    five percent
",
    "CATCH: What is done about an error

In OpenEdge: CATCH at the end of a block runs where an iteration of the block
ends in a fault or an UNDO, THROW; it has the error object.

Refused by G1 at 1:19:

    DO ON ERROR UNDO, THROW:
                      ^

Here: NO-ERROR goes on after a fault, and ERROR-STATUS:ERROR says whether
there was one; ON ERROR of a block says what follows a fault in it, which is
written to the output.

    FIND Customer WHERE Customer.CustNum = 9 NO-LOCK NO-ERROR.
    IF ERROR-STATUS:ERROR THEN MESSAGE \"no customer 9\".
    DO ON ERROR UNDO, LEAVE:
      FIND Customer WHERE Customer.CustNum = 9 NO-LOCK.
      MESSAGE \"not reached\".
    END.
    MESSAGE \"after the block\".

It prints

    no customer 9
    ** no record found in Customer
    after the block
",
    "CHR: The character of a number

In OpenEdge: CHR(65) gives A, the character with this number in the code page.

Refused by Y1 at 1:9:

    MESSAGE CHR(65).
            ^

Here: In a text `~` and three octal digits are that byte; `~n`, `~t` and `~r`
are line feed, tab and carriage return.

    MESSAGE \"A and B are ~101 and ~102\".

It prints

    A and B are A and B
",
    "CLASS: Classes and objects

In OpenEdge: A .cls file defines a class; NEW makes an object of it, whose
methods are then called.

Refused by G1 at 1:7:

    USING Sales.Invoice.
          ^

Here: An internal procedure takes the place of a method: its INPUT parameters
are the arguments, and an OUTPUT parameter is its result. Values have six
kinds, and none is an object.

    DEFINE VARIABLE due AS DECIMAL.
    RUN amountDue (100, OUTPUT due).
    MESSAGE due.
    PROCEDURE amountDue:
      DEFINE INPUT PARAMETER net AS DECIMAL.
      DEFINE OUTPUT PARAMETER gross AS DECIMAL.
      gross = net * 1.2.
    END PROCEDURE.

It prints

    120
",
    "COLUMN-LABEL: Labels, helps and other options of a variable

In OpenEdge: DEFINE VARIABLE takes COLUMN-LABEL, HELP, VIEW-AS and others,
which say how it is shown.

Refused by G1 at 1:34:

    DEFINE VARIABLE total AS DECIMAL COLUMN-LABEL \"Total\".
                                     ^

Here: NO-UNDO, INITIAL, FORMAT and LABEL are taken. FORMAT is the mask of PUT,
and LABEL changes nothing.

    DEFINE VARIABLE total AS DECIMAL LABEL \"Total\" FORMAT \">>9.99\" INITIAL 3.
    PUT total SKIP.

It prints

      3.00
",
    "CONNECT: A connection to a database

In OpenEdge: CONNECT opens a database for the session, and DISCONNECT closes
it.

Refused by G1 at 1:9:

    CONNECT sports.
            ^

Here: The database is the first argument of the command, and a run has one.
The command opens it before the clients begin and closes it when all have
ended.
",
    "CONTAINS: Records by the words of a field

In OpenEdge: WHERE field CONTAINS \"word\" finds records by a word index.

Refused by G1 at 1:48:

    FOR EACH Customer WHERE Customer.Name CONTAINS \"tours\" NO-LOCK:
                                                   ^

Here: A word index of the schema file is skipped. ENTRY with a blank as
delimiter gives each word of a text.

    DEFINE VARIABLE i AS INTEGER.
    FOR EACH Customer NO-LOCK:
      DO i = 1 TO NUM-ENTRIES(Customer.Name, \" \"):
        IF ENTRY(i, Customer.Name, \" \") = \"tours\" THEN MESSAGE Customer.Name.
      END.
    END.

It prints

    Lift Tours
",
    "DATASET: Data of several tables as one object

In OpenEdge: A dataset holds temporary tables with their relations, and is
filled, saved and written as XML or JSON.

Refused by G1 at 1:8:

    DEFINE DATASET sales FOR Order.
           ^

Here: FOR reads the records, and EXPORT writes each as a line, which IMPORT
reads again. A text in XML or JSON is written by PUT UNFORMATTED.

    FOR EACH Order WHERE Order.CustNum = 1 NO-LOCK:
      EXPORT Order.OrderNum Order.Total.
    END.

It prints

    1 10.25
    3 20
",
    "DATE: The date that a text denotes

In OpenEdge: DATE(\"12/31/2026\") reads a date in the session's format;
DATE(month, day, year) makes one of its parts.

Refused by Y7 at 1:9:

    MESSAGE DATE(\"12/31/2026\").
            ^

Here: DATE takes the three parts. A date in a source is written without
quotation marks, and IMPORT reads one; else ENTRY cuts the text.

    DEFINE VARIABLE t AS CHARACTER INITIAL \"12/31/2026\".
    DEFINE VARIABLE d AS DATE.
    d = DATE(INTEGER(ENTRY(1, t, \"/\")), INTEGER(ENTRY(2, t, \"/\")), INTEGER(ENTRY(3, t, \"/\"))).
    MESSAGE d + 1.

It prints

    01/01/27
",
    "DATETIME: A date with a time of day

In OpenEdge: DATETIME and DATETIME-TZ are types of a date and its time in
milliseconds.

Refused by G1 at 1:25:

    DEFINE VARIABLE sent AS DATETIME.
                            ^

Here: A DATE, and an INTEGER of seconds since midnight. A field of this type
holds `?` and cannot be named (Y9).

    DEFINE VARIABLE sent AS DATE INITIAL 12/01/2026.
    DEFINE VARIABLE seconds AS INTEGER INITIAL 3725.
    MESSAGE sent (seconds - seconds MODULO 3600) / 3600 seconds MODULO 3600.

It prints

    12/01/26 1 125
",
    "DECIMALS: How many decimals a variable or a field keeps

In OpenEdge: DEFINE VARIABLE x AS DECIMAL DECIMALS 2, and DECIMALS 2 of a
field, round each value that is assigned.

Refused by G1 at 1:34:

    DEFINE VARIABLE price AS DECIMAL DECIMALS 2.
                                     ^

Here: Each DECIMAL keeps ten decimals, and DECIMALS of a schema file is
skipped. Round where money is assigned: INT64 rounds a half away from zero, as
ROUND does.

    DEFINE VARIABLE price AS DECIMAL.
    price = 12.255.
    price = INT64(price * 100) / 100.
    MESSAGE price.

It prints

    12.26
",
    "DEFI: A keyword cut short

In OpenEdge: A keyword may be cut short to each beginning that the manual
allows, as DEFI for DEFINE.

Refused by G1 at 1:6:

    DEFI VARIABLE i AS INTEGER.
         ^

Here: Write the word whole, or as one of DEF, VAR, PARAM, PROCE, CHAR, INT,
DEC, LOG, INIT, TRANS, EXCLUSIVE, SHARE and AVAIL. Every other beginning is a
name.

    DEF VAR i AS INT INIT 3.
    MESSAGE i.

It prints

    3
",
    "DELIMITER: Another delimiter than the blank in IMPORT and EXPORT

In OpenEdge: IMPORT DELIMITER \",\" reads values with commas between them, and
EXPORT DELIMITER \",\" writes them so.

Refused by G1 at 2:18:

    DEFINE VARIABLE given AS CHARACTER.
    IMPORT DELIMITER \",\" given.
                     ^

Here: Put each line of the file into quotation marks first, as `sed 's/\"/\"\"/g;
s/.*/\"&\"/'` does; then IMPORT reads it as one text, and ENTRY cuts it.

    DEFINE VARIABLE given AS CHARACTER NO-UNDO.
    REPEAT:
      IMPORT given.
      MESSAGE ENTRY(2, given) DECIMAL(ENTRY(3, given)) * 2.
      PUT UNFORMATTED ENTRY(2, given) \",\" ENTRY(1, given) SKIP.
    END.

Over the input

    \"1,Ann,12.50\"
    \"2,Bob,3\"

it prints

    Ann 25
    Ann,1
    Bob 6
    Bob,2
",
];

/// The texts of the pages from place 80 on.
fn texts_5() -> &'static [&'static str] {
    &TEXTS_5
}

static TEXTS_6: [&str; 16] = [
    "DISPLAY: Values on the screen

In OpenEdge: DISPLAY shows values in a frame, with their labels and masks.

Refused by G1 at 2:9:

    FIND FIRST Customer NO-LOCK.
    DISPLAY Customer.Name.
            ^

Here: PUT writes values under their masks, and MESSAGE a line with their plain
texts. A client has no screen.

    FOR EACH Customer NO-LOCK:
      PUT Customer.CustNum FORMAT \">>9\" SPACE Customer.Name Customer.Balance SKIP.
    END.
    MESSAGE \"done\".

It prints

      1 Lift Tours       40.50
      2 Aerobics         12.00
      3 Hoops             0.00
    done
",
    "EXCEPT: All fields but some

In OpenEdge: EXPORT Customer EXCEPT Since leaves the field out; so do IMPORT,
ASSIGN and BUFFER-COPY.

Refused by Y8 at 2:8:

    FIND FIRST Customer NO-LOCK.
    EXPORT Customer EXCEPT Since.
           ^

Here: Name the fields. IMPORT passes over an element of the line at a `^`.

    FIND FIRST Customer NO-LOCK.
    EXPORT Customer.CustNum Customer.Name Customer.Balance.

It prints

    1 \"Lift Tours\" 40.5
",
    "EXTENT: Arrays

In OpenEdge: EXTENT 3 makes a variable or field of three elements, and x[2] is
the second.

Refused by L1 at 1:50:

    DEFINE VARIABLE days AS INTEGER EXTENT 3 INITIAL [31, 28, 31].
                                                     ^

Here: One variable for each element; or a list in a text, which ENTRY reads;
or a table with a record for each. A field with EXTENT holds `?` and cannot be
named (Y9).

    DEFINE VARIABLE days AS CHARACTER INITIAL \"31,28,31\".
    DEFINE VARIABLE i AS INTEGER.
    DEFINE VARIABLE total AS INTEGER.
    DO i = 1 TO NUM-ENTRIES(days):
      total = total + INTEGER(ENTRY(i, days)).
    END.
    MESSAGE total.

It prints

    90
",
    "FILL: A text several times

In OpenEdge: FILL(\"-\", 10) gives ten hyphens.

Refused by G1 at 1:17:

    MESSAGE FILL(\"-\", 10).
                    ^

Here: A counting loop.

    DEFINE VARIABLE rule AS CHARACTER.
    DEFINE VARIABLE i AS INTEGER.
    DO i = 1 TO 10:
      rule = rule + \"-\".
    END.
    MESSAGE rule.

It prints

    ----------
",
    "FINALLY: What is done however a block ends

In OpenEdge: FINALLY at the end of a block runs after each iteration of it,
also after a fault.

Refused by G1 at 4:5:

    DO TRANSACTION:
      MESSAGE \"work\".
      FINALLY:
        MESSAGE \"done\".
        ^

Here: Write it after the block, and ON ERROR UNDO, LEAVE into the block's
header.

    DO TRANSACTION ON ERROR UNDO, LEAVE:
      FIND Customer WHERE Customer.CustNum = 9.
    END.
    MESSAGE \"always done\".

It prints

    ** no record found in Customer
    always done
",
    "FRAME: The layout of a screen

In OpenEdge: FORM and DEFINE FRAME lay out values on a screen; VIEW, HIDE,
CLEAR and DOWN show and move them.

Refused by G1 at 1:6:

    FORM Customer.Name WITH FRAME shown.
         ^

Here: There are no screens: a client runs without a terminal. Leave the
statements out; PUT with FORMAT, SPACE and SKIP lays out the lines of a
report.
",
    "FUNCTION: A function of the source's own

In OpenEdge: FUNCTION withTax RETURNS DECIMAL (net AS DECIMAL): .. END
FUNCTION defines a function, which expressions then call.

Refused by G1 at 1:10:

    FUNCTION withTax RETURNS DECIMAL (net AS DECIMAL):
             ^

Here: An internal procedure with an OUTPUT parameter, run before the
expression.

    DEFINE VARIABLE gross AS DECIMAL.
    RUN withTax (100, OUTPUT gross).
    MESSAGE gross + 5.
    PROCEDURE withTax:
      DEFINE INPUT PARAMETER net AS DECIMAL.
      DEFINE OUTPUT PARAMETER answer AS DECIMAL.
      answer = net * 1.2.
    END PROCEDURE.

It prints

    125
",
    "GET-MESSAGE: The text of a fault

In OpenEdge: After NO-ERROR, ERROR-STATUS:GET-MESSAGE(1) is the text of the
first fault, and ERROR-STATUS:NUM-MESSAGES counts them.

Refused by G1 at 1:22:

    MESSAGE ERROR-STATUS:GET-MESSAGE(1).
                         ^

Here: ERROR-STATUS:ERROR says that there was a fault, and RETURN-VALUE has the
text of RETURN ERROR. Without NO-ERROR the text of a fault is a line `** ..`
of the output.

    RUN checkStock NO-ERROR.
    IF ERROR-STATUS:ERROR THEN MESSAGE \"failed:\" RETURN-VALUE.
    PROCEDURE checkStock:
      RETURN ERROR \"no stock\".
    END PROCEDURE.

It prints

    failed: no stock
",
    "HANDLE: A reference to an object at run time

In OpenEdge: A HANDLE refers to a procedure, buffer, query, field or widget,
whose attributes and methods follow a colon.

Refused by G1 at 1:26:

    DEFINE VARIABLE found AS HANDLE.
                             ^

Here: Left out: each buffer, field and procedure is named in the source, so
that all of it is judged before it runs. Write one branch of an IF for each
name.

    DEFINE VARIABLE field AS CHARACTER INITIAL \"name\".
    FIND FIRST Customer NO-LOCK.
    IF field = \"name\" THEN MESSAGE Customer.Name.
    ELSE IF field = \"city\" THEN MESSAGE Customer.City.

It prints

    Lift Tours
",
    "INDEX: The place of a text in another

In OpenEdge: INDEX(t, part) gives the first place of part in t, from 1, or 0
where it is not there.

Refused by G1 at 1:25:

    MESSAGE INDEX(\"order=42\", \"=\").
                            ^

Here: ENTRY with the part as delimiter gives what is before it; the part is
there where NUM-ENTRIES is more than 1. Capitals and small letters of the part
differ then.

    DEFINE VARIABLE t AS CHARACTER INITIAL \"order=42\".
    DEFINE VARIABLE found AS INTEGER.
    IF NUM-ENTRIES(t, \"=\") > 1 THEN found = LENGTH(ENTRY(1, t, \"=\")) + 1.
    MESSAGE found SUBSTRING(t, found + 1).

It prints

    6 42
",
    "JOIN: FOR over several tables

In OpenEdge: FOR EACH Customer, EACH Order OF Customer reads each order with
its customer.

Refused by G1 at 1:26:

    FOR EACH Customer NO-LOCK, EACH Order WHERE Order.CustNum = Customer.CustNum NO-LOCK:
                             ^

Here: One FOR in another, with WHERE. Where no inner record fits, as in an
outer join, the statements of the outer FOR run all the same.

    FOR EACH Customer NO-LOCK:
      FOR EACH Order WHERE Order.CustNum = Customer.CustNum NO-LOCK:
        MESSAGE Customer.Name Order.OrderNum.
      END.
    END.

It prints

    Lift Tours 1
    Lift Tours 3
    Aerobics 2
",
    "LC: A text in small letters

In OpenEdge: LC(t) gives t with its letters small.

Refused by Y1 at 1:9:

    MESSAGE LC(\"Shop 4\").
            ^

Here: Comparisons, BEGINS and indexes ignore case, so it is seldom needed.
Where small letters are to be written, look up each letter.

    DEFINE VARIABLE letters AS CHARACTER INITIAL \"abcdefghijklmnopqrstuvwxyz\".
    DEFINE VARIABLE c AS CHARACTER.
    DEFINE VARIABLE i AS INTEGER.
    DEFINE VARIABLE k AS INTEGER.
    DO i = 1 TO LENGTH(\"Shop 4\"):
      c = SUBSTRING(\"Shop 4\", i, 1).
      DO k = 1 TO 26:
        IF SUBSTRING(letters, k, 1) = c THEN c = SUBSTRING(letters, k, 1).
      END.
      PUT UNFORMATTED c.
    END.

It prints

    shop 4
",
    "LIKE: A variable with the type of a field

In OpenEdge: DEFINE VARIABLE x LIKE Customer.Name gives x the type, the mask
and the label of the field.

Refused by G1 at 1:24:

    DEFINE VARIABLE wanted LIKE Customer.Name.
                           ^

Here: AS with the type of the field, and FORMAT with its mask where PUT writes
the variable.

    DEFINE VARIABLE wanted AS CHARACTER FORMAT \"x(20)\".
    wanted = \"Hoops\".
    FIND Customer WHERE Customer.Name = wanted NO-LOCK.
    MESSAGE Customer.CustNum.

It prints

    3
",
    "LOGICAL: The LOGICAL that a text or number denotes

In OpenEdge: LOGICAL(\"yes\") gives yes, and LOGICAL(1) too.

Refused by G1 at 1:9:

    MESSAGE LOGICAL(\"yes\").
            ^

Here: A comparison. Its value can be assigned to a LOGICAL.

    DEFINE VARIABLE given AS CHARACTER INITIAL \"Yes\".
    DEFINE VARIABLE agreed AS LOGICAL.
    agreed = given = \"yes\" OR given = \"true\".
    MESSAGE agreed.

It prints

    yes
",
    "LONGCHAR: Texts and bytes without a limit

In OpenEdge: LONGCHAR, CLOB, BLOB, RAW and MEMPTR hold long texts and bytes;
COPY-LOB and RAW-TRANSFER move them.

Refused by G1 at 1:27:

    DEFINE VARIABLE letter AS LONGCHAR.
                              ^

Here: A CHARACTER has at most 30,000 bytes; a longer text is kept line by
line. A field of these types holds `?` and cannot be named (Y9).

    DEFINE VARIABLE given AS CHARACTER NO-UNDO.
    REPEAT:
      IMPORT given.
      PUT UNFORMATTED given SKIP.
    END.

Over the input

    \"Dear customer,\"
    \"your order is on its way.\"

it prints

    Dear customer,
    your order is on its way.
",
    "LOOKUP: The place of an entry in a list

In OpenEdge: LOOKUP(\"b\", \"a,b,c\") gives 2, and 0 where the list does not have
the entry.

Refused by G1 at 1:19:

    MESSAGE LOOKUP(\"b\", \"a,b,c\").
                      ^

Here: A loop over the entries.

    DEFINE VARIABLE i AS INTEGER.
    DEFINE VARIABLE place AS INTEGER.
    DO i = NUM-ENTRIES(\"a,b,c\") TO 1 BY -1:
      IF ENTRY(i, \"a,b,c\") = \"b\" THEN place = i.
    END.
    MESSAGE place.

It prints

    2
",
];

/// The texts of the pages from place 96 on.
fn texts_6() -> &'static [&'static str] {
    &TEXTS_6
}

static TEXTS_7: [&str; 16] = [
    "MATCHES: Whether a text fits a pattern

In OpenEdge: t MATCHES \"*tour*\" compares with a pattern, where `*` is any text
and `.` any character.

Refused by G1 at 1:47:

    FOR EACH Customer WHERE Customer.Name MATCHES \"*tour*\" NO-LOCK:
                                                  ^

Here: BEGINS where the pattern is `tour*`; SUBSTRING(t, LENGTH(t) - 3) =
\"tour\" where it is `*tour`; and a loop where it is `*tour*`.

    DEFINE VARIABLE i AS INTEGER.
    FOR EACH Customer NO-LOCK:
      DO i = 1 TO LENGTH(Customer.Name):
        IF SUBSTRING(Customer.Name, i) BEGINS \"tour\" THEN DO:
          MESSAGE Customer.Name.
          LEAVE.
        END.
      END.
    END.

It prints

    Lift Tours
",
    "MAXIMUM: The greatest of some values

In OpenEdge: MAXIMUM(a, b, c) gives the greatest of its arguments.

Refused by G1 at 1:18:

    MESSAGE MAXIMUM(3, 7).
                     ^

Here: An IF in the expression.

    DEFINE VARIABLE a AS INTEGER INITIAL 3.
    DEFINE VARIABLE b AS INTEGER INITIAL 7.
    MESSAGE IF a > b THEN a ELSE b.

It prints

    7
",
    "MINIMUM: The least of some values

In OpenEdge: MINIMUM(a, b, c) gives the least of its arguments.

Refused by G1 at 1:18:

    MESSAGE MINIMUM(3, 7).
                     ^

Here: An IF in the expression.

    DEFINE VARIABLE a AS INTEGER INITIAL 3.
    DEFINE VARIABLE b AS INTEGER INITIAL 7.
    MESSAGE IF a < b THEN a ELSE b.

It prints

    3
",
    "MOD: The remainder of a division

In OpenEdge: MOD is a short form of MODULO.

Refused by Y1 at 1:11:

    MESSAGE 7 MOD 3.
              ^

Here: MODULO, written whole. Its result has the sign of the number before it.

    MESSAGE 7 MODULO 3 (-7) MODULO 3.

It prints

    1 -1
",
    "NEXT-VALUE: A number of a sequence inside an expression

In OpenEdge: NEXT-VALUE(sequence) and CURRENT-VALUE(sequence) are allowed
wherever a number is; CURRENT-VALUE(sequence) = n sets it.

Refused by G1 at 1:17:

    MESSAGE \"order\" NEXT-VALUE(NextOrder).
                    ^

Here: They are the whole right side of an assignment; use the variable then. A
sequence cannot be set: its INITIAL in the schema file is where it begins.

    DEFINE VARIABLE n AS INTEGER NO-UNDO.
    n = NEXT-VALUE(NextOrder).
    MESSAGE \"order\" n.

It prints

    order 1
",
    "NO-ECHO: Options of INPUT FROM and OUTPUT TO

In OpenEdge: NO-ECHO shows nothing of what is read; UNBUFFERED, BINARY and
CONVERT say how bytes are moved.

Refused by G1 at 1:17:

    INPUT FROM \"in\" NO-ECHO.
                    ^

Here: Leave them out: nothing is echoed, bytes are read and written as they
are, and APPEND is the one option of OUTPUT TO.

    DEFINE VARIABLE number AS INTEGER.
    INPUT FROM \"in\".
    IMPORT number.
    INPUT CLOSE.
    MESSAGE number.

Over the input

    7

it prints

    7
",
    "OF: Records that share a field with another buffer's

In OpenEdge: FOR EACH Order OF Customer, and FIND .. OF, read by the field
that the two tables and a unique index have in common.

Refused by G1 at 2:19:

    FIND FIRST Customer NO-LOCK.
    FOR EACH Order OF Customer NO-LOCK:
                      ^

Here: WHERE with both fields.

    FIND FIRST Customer NO-LOCK.
    FOR EACH Order WHERE Order.CustNum = Customer.CustNum NO-LOCK:
      MESSAGE Order.OrderNum Order.Total.
    END.

It prints

    1 10.25
    3 20
",
    "ON: Triggers: what runs when something happens

In OpenEdge: ON WRITE OF Customer, and ON CHOOSE OF a button, run statements
when that happens. A .df names the triggers of its tables.

Refused by G1 at 1:1:

    ON WRITE OF Customer
    ^

Here: Nothing runs by itself, and the triggers of a schema file are skipped.
RUN an internal procedure where the record is changed.

    FIND FIRST Customer EXCLUSIVE-LOCK.
    Customer.City = \"Bergen\".
    RUN cityChanged (Customer.CustNum).
    PROCEDURE cityChanged:
      DEFINE INPUT PARAMETER number AS INTEGER.
      MESSAGE \"customer\" number \"moved\".
    END PROCEDURE.

It prints

    customer 1 moved
",
    "ON STOP: What is done about a stop

In OpenEdge: DO ON STOP UNDO, LEAVE catches a STOP statement, a lost
connection or the stop key; ON QUIT catches QUIT.

Refused by G1 at 1:19:

    DO TRANSACTION ON STOP UNDO, LEAVE:
                      ^

Here: A stop ends its client, and what was not committed is undone. Use a
fault where the source is to go on: RETURN ERROR, and ON ERROR.

    DO ON ERROR UNDO, LEAVE:
      RUN work.
      MESSAGE \"not reached\".
    END.
    MESSAGE \"goes on:\" RETURN-VALUE.
    PROCEDURE work:
      RETURN ERROR \"no stock\".
    END PROCEDURE.

It prints

    goes on: no stock
",
    "OS-COMMAND: Commands of the operating system

In OpenEdge: OS-COMMAND, UNIX and DOS run a command; OS-COPY, OS-DELETE and
others work on files.

Refused by G1 at 1:12:

    OS-COMMAND SILENT \"gzip report.txt\".
               ^

Here: Left out: a source reads and writes what the command line gives it and
nothing else. The shell script that calls `abl` does it before or after.
",
    "OVERLAY: A part of a text, replaced

In OpenEdge: OVERLAY(t, 4, 2) = \"XY\" and SUBSTRING(t, 4, 2) = \"XY\" replace two
characters of t from the fourth on.

Refused by G1 at 2:1:

    DEFINE VARIABLE t AS CHARACTER INITIAL \"part 00\".
    SUBSTRING(t, 6, 2) = \"42\".
    ^

Here: Join the part before, the new one, and the part after.

    DEFINE VARIABLE t AS CHARACTER INITIAL \"part 00 of 50\".
    t = SUBSTRING(t, 1, 5) + \"42\" + SUBSTRING(t, 8).
    MESSAGE t.

It prints

    part 42 of 50
",
    "PAGE: Pages of a report

In OpenEdge: OUTPUT TO .. PAGED begins a new page after each 56 lines, with
the frames of PAGE-TOP at its head.

Refused by G1 at 1:24:

    OUTPUT TO \"report.txt\" PAGE-SIZE 60.
                           ^

Here: Count the lines and write the head of a page where one is full; a form
feed is `~014` in a text.

    DEFINE VARIABLE lines AS INTEGER NO-UNDO.
    FOR EACH Customer NO-LOCK:
      IF lines MODULO 2 = 0 THEN PUT UNFORMATTED \"Page \" lines / 2 + 1 SKIP.
      PUT UNFORMATTED Customer.Name SKIP.
      lines = lines + 1.
    END.

It prints

    Page 1
    Lift Tours
    Aerobics
    Page 2
    Hoops
",
    "PARAMETER: Parameters that are buffers, tables or handles

In OpenEdge: DEFINE PARAMETER BUFFER b FOR t passes a buffer; TABLE, DATASET
and HANDLE may be passed too.

Refused by G1 at 2:10:

    PROCEDURE show:
      DEFINE PARAMETER BUFFER given FOR Customer.
             ^

Here: A parameter has one of the six kinds of value. Pass the key, and FIND
the record in the procedure, which has buffers of its own.

    FIND FIRST Customer NO-LOCK.
    RUN show (Customer.CustNum).
    PROCEDURE show:
      DEFINE INPUT PARAMETER number AS INTEGER.
      FIND Customer WHERE Customer.CustNum = number NO-LOCK.
      MESSAGE Customer.Name.
    END PROCEDURE.

It prints

    Lift Tours
",
    "PAUSE: A wait

In OpenEdge: PAUSE 5 NO-MESSAGE waits five seconds, as between two tries to
lock a record.

Refused by G1 at 1:7:

    PAUSE 5 NO-MESSAGE.
          ^

Here: A run has no clock. FIND without NO-WAIT waits until the other client's
lock is free; a circle of waiting clients ends one of them with Deadlock.

    FIND FIRST Customer EXCLUSIVE-LOCK.
    MESSAGE Customer.Name.

It prints

    Lift Tours
",
    "PRESELECT: The records of a loop, found before it begins

In OpenEdge: REPEAT PRESELECT EACH Customer makes a list of records, which
FIND NEXT then reads.

Refused by G1 at 1:18:

    REPEAT PRESELECT EACH Customer NO-LOCK:
                     ^

Here: FOR EACH. It reads the next record when the iteration before has ended:
a loop that changes fields of its index can meet a record again.

    FOR EACH Customer WHERE Customer.City = \"Boston\" EXCLUSIVE-LOCK:
      Customer.Balance = Customer.Balance + 1.
      MESSAGE Customer.Name Customer.Balance.
    END.

It prints

    Lift Tours 41.5
    Hoops 1
",
    "PRIVATE: Options of a procedure

In OpenEdge: PROCEDURE p PRIVATE hides an internal procedure from other files;
EXTERNAL declares one of a shared library.

Refused by G1 at 1:16:

    PROCEDURE show PRIVATE:
                   ^

Here: PROCEDURE without an option. Only the source itself can run its internal
procedures.

    RUN show.
    PROCEDURE show:
      MESSAGE \"shown\".
    END PROCEDURE.

It prints

    shown
",
];

/// The texts of the pages from place 112 on.
fn texts_7() -> &'static [&'static str] {
    &TEXTS_7
}

static TEXTS_8: [&str; 16] = [
    "PUBLISH: Events that procedures subscribe to

In OpenEdge: PUBLISH \"event\" runs the internal procedure of that name in each
procedure that has subscribed.

Refused by G1 at 1:9:

    PUBLISH \"orderPlaced\" (1).
            ^

Here: RUN each internal procedure that subscribed.

    RUN orderPlaced (1).
    PROCEDURE orderPlaced:
      DEFINE INPUT PARAMETER number AS INTEGER.
      MESSAGE \"order\" number \"placed\".
    END PROCEDURE.

It prints

    order 1 placed
",
    "QUERY: A set of records that is read to and fro

In OpenEdge: DEFINE QUERY and OPEN QUERY choose records; GET FIRST, NEXT, PREV
and LAST read them.

Refused by G1 at 1:8:

    DEFINE QUERY found FOR Customer.
           ^

Here: FIND FIRST, NEXT, PREV and LAST with the same WHERE and USE-INDEX;
AVAILABLE is no past the last one.

    FIND FIRST Customer WHERE Customer.City = \"Boston\" NO-LOCK NO-ERROR.
    DO WHILE AVAILABLE Customer:
      MESSAGE Customer.Name.
      FIND NEXT Customer WHERE Customer.City = \"Boston\" NO-LOCK NO-ERROR.
    END.

It prints

    Lift Tours
    Hoops
",
    "QUIT: The end of the session

In OpenEdge: QUIT ends the session, and commits what is open.

Refused by G1 at 1:5:

    QUIT.
        ^

Here: RETURN in the external procedure ends the client. STOP ends it too, and
undoes what is not committed.

    FIND Customer WHERE Customer.CustNum = 9 NO-LOCK NO-ERROR.
    IF NOT AVAILABLE Customer THEN DO:
      MESSAGE \"no customer 9\".
      RETURN.
    END.
    MESSAGE \"not reached\".

It prints

    no customer 9
",
    "R-INDEX: The last place of a text in another

In OpenEdge: R-INDEX(t, part) gives the last place of part in t, from 1, or 0
where it is not there.

Refused by G1 at 1:26:

    MESSAGE R-INDEX(\"a/b/c.p\", \"/\").
                             ^

Here: The last entry with the part as delimiter is what follows it.

    DEFINE VARIABLE t AS CHARACTER INITIAL \"a/b/c.p\".
    DEFINE VARIABLE tail AS CHARACTER.
    tail = ENTRY(NUM-ENTRIES(t, \"/\"), t, \"/\").
    MESSAGE tail LENGTH(t) - LENGTH(tail).

It prints

    c.p 4
",
    "RANDOM: A number by chance

In OpenEdge: RANDOM(1, 6) gives a whole number from 1 to 6.

Refused by G1 at 1:17:

    MESSAGE RANDOM(1, 6).
                    ^

Here: What a client does depends on its source, its input and the database
alone. A generator that starts from a number of the input gives numbers that
look like chance.

    DEFINE VARIABLE seed AS INT64 NO-UNDO.
    DEFINE VARIABLE i AS INTEGER NO-UNDO.
    IMPORT seed.
    DO i = 1 TO 3:
      seed = (seed * 1103515245 + 12345) MODULO 2147483648.
      MESSAGE INT64((seed - seed MODULO 65536) / 65536) MODULO 6 + 1.
    END.

Over the input

    7

it prints

    5
    3
    3
",
    "REPLACE: A part of a text by another, wherever it is

In OpenEdge: REPLACE(t, old, new) puts new in place of each old.

Refused by G1 at 1:33:

    MESSAGE REPLACE(\"1.250 and 3.75\", \".\", \",\").
                                    ^

Here: The entries with the old part as delimiter, joined by the new one.

    DEFINE VARIABLE t AS CHARACTER INITIAL \"1.250 and 3.75\".
    DEFINE VARIABLE made AS CHARACTER.
    DEFINE VARIABLE i AS INTEGER.
    made = ENTRY(1, t, \".\").
    DO i = 2 TO NUM-ENTRIES(t, \".\"):
      made = made + \",\" + ENTRY(i, t, \".\").
    END.
    MESSAGE made.

It prints

    1,250 and 3,75
",
    "ROUND: A number rounded to some decimals

In OpenEdge: ROUND(x, 2) gives x with two decimals, a half away from zero.

Refused by G1 at 1:21:

    MESSAGE ROUND(12.255, 2).
                        ^

Here: INT64 rounds so: multiply by 100 before and divide by 100 after, for two
decimals, with either sign.

    DEFINE VARIABLE x AS DECIMAL INITIAL 12.255.
    MESSAGE INT64(x * 100) / 100.
    x = -12.255.
    MESSAGE INT64(x * 100) / 100.

It prints

    12.26
    -12.26
",
    "ROWID: The identity of a record

In OpenEdge: ROWID(Customer) identifies a record for as long as it is there,
and FIND .. WHERE ROWID(Customer) = r reads it again.

Refused by Y1 at 2:9:

    FIND FIRST Customer NO-LOCK.
    MESSAGE ROWID(Customer).
            ^

Here: Keep the value of a unique key.

    DEFINE VARIABLE kept AS INTEGER NO-UNDO.
    FIND FIRST Customer NO-LOCK.
    kept = Customer.CustNum.
    FIND LAST Customer NO-LOCK.
    FIND Customer WHERE Customer.CustNum = kept NO-LOCK.
    MESSAGE Customer.Name.

It prints

    Lift Tours
",
    "RUN: RUN of another file

In OpenEdge: RUN other.p (args) runs another source; with PERSISTENT SET h it
stays, and its internal procedures are run IN h.

Refused by G1 at 1:5:

    RUN other.p (1).
        ^

Here: Put the text of the other file into this source as an internal
procedure. A further source that is to run at the same time is another client
of the command.

    RUN other (1).
    PROCEDURE other:
      DEFINE INPUT PARAMETER number AS INTEGER.
      MESSAGE \"number\" number.
    END PROCEDURE.

It prints

    number 1
",
    "SEEK: The place in an input or output

In OpenEdge: SEEK INPUT TO n moves to a byte of a file, and SEEK(INPUT) is the
place now.

Refused by G1 at 1:6:

    SEEK INPUT TO 0.
         ^

Here: INPUT CLOSE and INPUT FROM begin the file anew. Other places are left
out.

    DEFINE VARIABLE given AS CHARACTER NO-UNDO.
    INPUT FROM \"in\".
    IMPORT given.
    INPUT CLOSE.
    INPUT FROM \"in\".
    IMPORT given.
    MESSAGE given.

Over the input

    one
    two

it prints

    one
",
    "SESSION: What a source asks about its session

In OpenEdge: SESSION, USERID, OPSYS, PROGRAM-NAME and others give what is
known of the session, its user and its machine.

Refused by Y1 at 1:9:

    MESSAGE USERID(\"sports\").
            ^

Here: Left out: what a client does depends on its source, its input and the
database alone. Give what it needs as a line of its input.

    DEFINE VARIABLE user AS CHARACTER.
    IMPORT user.
    MESSAGE \"for\" user.

Over the input

    ann

it prints

    for ann
",
    "SHARED: Variables, buffers and streams of several files

In OpenEdge: DEFINE NEW SHARED VARIABLE in one file and DEFINE SHARED VARIABLE
in another are one variable.

Refused by G1 at 1:8:

    DEFINE NEW SHARED VARIABLE total AS DECIMAL.
           ^

Here: An internal procedure sees the variables and streams of its source that
are defined before it. Buffers it has of its own.

    DEFINE VARIABLE total AS DECIMAL.
    RUN addToTotal (5).
    MESSAGE total.
    PROCEDURE addToTotal:
      DEFINE INPUT PARAMETER amount AS DECIMAL.
      total = total + amount.
    END PROCEDURE.

It prints

    5
",
    "SQRT: Roots and powers

In OpenEdge: SQRT(x) gives the square root, EXP(x, n) the n-th power, and
LOG(x) the logarithm.

Refused by Y1 at 1:9:

    MESSAGE SQRT(2).
            ^

Here: Newton's steps for a root, and a loop of products for a whole power.

    DEFINE VARIABLE root AS DECIMAL INITIAL 1.
    DEFINE VARIABLE i AS INTEGER.
    DO i = 1 TO 20:
      root = (root + 2 / root) / 2.
    END.
    MESSAGE root.

It prints

    1.4142135624
",
    "SUBSTITUTE: A text with values in their places

In OpenEdge: SUBSTITUTE(\"order &1 of &2\", n, name) puts the values in place of
&1 and &2.

Refused by G1 at 1:36:

    MESSAGE SUBSTITUTE(\"order &1 of &2\", 7, \"Ann\").
                                       ^

Here: `+` joins texts, and STRING makes a text of any value. MESSAGE and PUT
UNFORMATTED take several values anyway.

    DEFINE VARIABLE line AS CHARACTER.
    line = \"order \" + STRING(7) + \" of \" + \"Ann\".
    MESSAGE line.

It prints

    order 7 of Ann
",
    "TEMP-TABLE: A table of the program's own

In OpenEdge: DEFINE TEMP-TABLE makes a table in memory, which ends with the
program.

Refused by G1 at 1:8:

    DEFINE TEMP-TABLE found NO-UNDO
           ^

Here: A table of the schema file, whose records an UNDO takes back at the end.
A few values may be a list in a text, which ENTRY reads.

    DEFINE VARIABLE total AS DECIMAL NO-UNDO.
    DO TRANSACTION:
      CREATE Order.
      ASSIGN Order.OrderNum = 90 Order.Total = 7.
      FOR EACH Order:
        total = total + Order.Total.
      END.
      UNDO, LEAVE.
    END.
    MESSAGE total.

It prints

    42.75
",
    "THROUGH: Output to a printer or another program

In OpenEdge: OUTPUT TO PRINTER and OUTPUT THROUGH program send the output on.

Refused by G1 at 1:8:

    OUTPUT THROUGH lpr.
           ^

Here: OUTPUT TO \"name\" writes a part of the report, after a line `==
CLIENT:name ==` on standard output; the shell sends it on.

    OUTPUT TO \"labels\".
    PUT UNFORMATTED \"Lift Tours\" SKIP.
    OUTPUT CLOSE.
    MESSAGE \"done\".

It prints

    done
    == a:labels ==
    Lift Tours
",
];

/// The texts of the pages from place 128 on.
fn texts_8() -> &'static [&'static str] {
    &TEXTS_8
}

static TEXTS_9: [&str; 12] = [
    "TIME: The time of day

In OpenEdge: TIME gives the seconds since midnight, and ETIME the milliseconds
since it was reset.

Refused by Y1 at 1:16:

    MESSAGE STRING(TIME, \"99999\").
                   ^

Here: A run has no clock, so that the same input gives the same output. IMPORT
the time; the shell's `time` measures a run.

    DEFINE VARIABLE seconds AS INTEGER.
    IMPORT seconds.
    MESSAGE \"begun at\" seconds.

Over the input

    30600

it prints

    begun at 30600
",
    "TODAY: The date of the day

In OpenEdge: TODAY gives the date of the machine, and NOW the date and time.
INITIAL TODAY takes it for a variable or field.

Refused by Y1 at 1:9:

    MESSAGE TODAY.
            ^

Here: A run has no clock, so that the same input gives the same output. IMPORT
the date; a variable may be called TODAY. INITIAL \"TODAY\" of a schema file is
`?`.

    DEFINE VARIABLE TODAY AS DATE.
    IMPORT TODAY.
    MESSAGE TODAY TODAY + 30.

Over the input

    12/01/2026

it prints

    12/01/26 12/31/26
",
    "TRIM: A text without the blanks around it

In OpenEdge: TRIM(t) removes the blanks at both ends, LEFT-TRIM and RIGHT-TRIM
at one.

Refused by Y1 at 1:9:

    MESSAGE TRIM(\"  Ann \").
            ^

Here: Two loops. A comparison ignores blanks at the end, so those seldom
matter.

    DEFINE VARIABLE t AS CHARACTER INITIAL \"  Ann \".
    DO WHILE LENGTH(t) > 0 AND SUBSTRING(t, 1, 1) = \" \":
      t = SUBSTRING(t, 2).
    END.
    DO WHILE LENGTH(t) > 0 AND SUBSTRING(t, LENGTH(t)) = \" \":
      t = SUBSTRING(t, 1, LENGTH(t) - 1).
    END.
    MESSAGE \"[\" + t + \"]\".

It prints

    [Ann]
",
    "TRUNCATE: A number cut after some decimals

In OpenEdge: TRUNCATE(x, 2) drops the decimals after the second.

Refused by G1 at 1:24:

    MESSAGE TRUNCATE(12.259, 2).
                           ^

Here: INT64 rounds; go back by one where it rounded away from zero. For two
decimals multiply by 100 before and divide by 100 after.

    DEFINE VARIABLE x AS DECIMAL INITIAL 12.259.
    DEFINE VARIABLE n AS INT64.
    n = INT64(x * 100).
    IF x > 0 AND n > x * 100 THEN n = n - 1.
    IF x < 0 AND n < x * 100 THEN n = n + 1.
    MESSAGE n / 100.

It prints

    12.25
",
    "UNDEFINE: Words of the preprocessor that are not taken

In OpenEdge: &UNDEFINE takes the definition of a name back, &MESSAGE prints a
line while a source is compiled, and &ANALYZE-SUSPEND marks a part for a tool.

Refused by E7 at 1:1:

    &UNDEFINE limit
    ^

Here: Define the name anew, or as an argument of a file, which ends with that
file; leave out the lines for tools. &SCOPED-DEFINE and &GLOBAL-DEFINE are
written out.

    &SCOPED-DEFINE limit 20
    MESSAGE \"({&limit})\".
    &SCOPED-DEFINE limit
    MESSAGE \"({&limit})\".

It prints

    (20)
    ()
",
    "UNFORMATTED: A whole line of the input

In OpenEdge: IMPORT UNFORMATTED t reads a line as it is into a text.

Refused by G1 at 2:8:

    DEFINE VARIABLE t AS CHARACTER.
    IMPORT UNFORMATTED t.
           ^

Here: Put each line of the file into quotation marks first, as `sed 's/\"/\"\"/g;
s/.*/\"&\"/'` does; then IMPORT reads it as one text.

    DEFINE VARIABLE t AS CHARACTER.
    IMPORT t.
    MESSAGE LENGTH(t) t.

Over the input

    \"a line, 5\"\" wide\"

it prints

    15 a line, 5\" wide
",
    "UPDATE: Values that a user types

In OpenEdge: UPDATE, SET and PROMPT-FOR show fields on the screen and take
what the user types.

Refused by G1 at 2:8:

    DEFINE VARIABLE wanted AS CHARACTER.
    UPDATE wanted.
           ^

Here: IMPORT reads the values from the input of the client. At its end ENDKEY
ends the block.

    DEFINE VARIABLE who AS INTEGER NO-UNDO.
    DEFINE VARIABLE amount AS DECIMAL NO-UNDO.
    REPEAT TRANSACTION:
      IMPORT who amount.
      FIND Customer WHERE Customer.CustNum = who EXCLUSIVE-LOCK.
      Customer.Balance = Customer.Balance + amount.
      MESSAGE Customer.Name Customer.Balance.
    END.

Over the input

    1 5
    3 2.25

it prints

    Lift Tours 45.5
    Hoops 2.25
",
    "VALIDATE: A record checked before its block ends

In OpenEdge: VALIDATE Customer checks mandatory fields and unique keys, and
leaves the record in the buffer.

Refused by G1 at 2:10:

    CREATE Customer.
    VALIDATE Customer.
             ^

Here: A unique key is checked by the assignment with which all keys have a
value, and mandatory fields where the record is stored, which RELEASE does at
once. NO-ERROR and ERROR-STATUS:ERROR say whether a rule is broken.

    CREATE Customer.
    Customer.CustNum = 1 NO-ERROR.
    IF ERROR-STATUS:ERROR THEN DO:
      MESSAGE \"there is a customer 1\".
      DELETE Customer.
    END.

It prints

    there is a customer 1
",
    "VALUE: A name that is known only when the source runs

In OpenEdge: INPUT FROM VALUE(t), OUTPUT TO VALUE(t) and RUN VALUE(t) take the
name from a text.

Refused by G1 at 2:12:

    DEFINE VARIABLE t AS CHARACTER INITIAL \"in\".
    INPUT FROM VALUE(t).
               ^

Here: Names of files and procedures are written in the source: the files are
all read before anything runs. An IF chooses among several; the shell names
the client's own input.

    DEFINE VARIABLE region AS CHARACTER INITIAL \"north\".
    IF region = \"north\" THEN OUTPUT TO \"north.txt\".
    ELSE OUTPUT TO \"south.txt\".
    PUT UNFORMATTED \"3 customers\" SKIP.

It prints

    == a:north.txt ==
    3 customers
",
    "WAIT-FOR: A wait for events of the screen

In OpenEdge: WAIT-FOR handles the events of the screen until one of those
named comes; APPLY causes one.

Refused by G1 at 1:10:

    WAIT-FOR GO OF CURRENT-WINDOW.
             ^

Here: There are no screens, and a client runs from its first statement to its
last. Leave the statement out.
",
    "WEEKDAY: The day of the week

In OpenEdge: WEEKDAY(d) gives 1 for a Sunday, up to 7 for a Saturday.

Refused by Y1 at 1:9:

    MESSAGE WEEKDAY(12/01/2026).
            ^

Here: The days since a Sunday, as 12/31/1899, MODULO 7.

    DEFINE VARIABLE d AS DATE INITIAL 12/01/2026.
    MESSAGE (d - 12/31/1899) MODULO 7 + 1.

It prints

    3
",
    "WHEN: An assignment under a condition

In OpenEdge: ASSIGN a = 1 WHEN b > 0 makes an assignment of the list only
where the condition holds. (WHEN of CASE: see CASE.)

Refused by G1 at 2:22:

    DEFINE VARIABLE rate AS INTEGER.
    ASSIGN rate = 5 WHEN rate = 0.
                         ^

Here: IF, or an IF in the expression.

    DEFINE VARIABLE rate AS INTEGER.
    ASSIGN rate = IF rate = 0 THEN 5 ELSE rate.
    MESSAGE rate.

It prints

    5
",
];

/// The texts of the pages from place 144 on.
fn texts_9() -> &'static [&'static str] {
    &TEXTS_9
}

/// The text of the page at this place of `names`, its last line ended.
pub fn text(place: usize) -> Option<&'static str> {
    let group = match place / 16 {
        0 => texts_0(),
        1 => texts_1(),
        2 => texts_2(),
        3 => texts_3(),
        4 => texts_4(),
        5 => texts_5(),
        6 => texts_6(),
        7 => texts_7(),
        8 => texts_8(),
        9 => texts_9(),
        _ => return None,
    };
    group.get(place % 16).copied()
}

/// Other spellings of the words that have a page, and other words that have the same page: a line for each, the
/// spelling, `=` and the name of the page.
pub const SPELLINGS: &str = "ABS=ABSOLUTE
ACCUM=ACCUMULATE
AVERAGE=ACCUMULATE
SUB-TOTAL=ACCUMULATE
SUBTOTAL=ACCUMULATE
SUB TOTAL=ACCUMULATE
SUB-COUNT=ACCUMULATE
SUBCOUNT=ACCUMULATE
SUB COUNT=ACCUMULATE
ADDINTERVAL=ADD-INTERVAL
ADD INTERVAL=ADD-INTERVAL
INTERVAL=ADD-INTERVAL
ALERTBOX=ALERT-BOX
ALERT BOX=ALERT-BOX
VIEW-AS=ALERT-BOX
VIEWAS=ALERT-BOX
VIEW AS=ALERT-BOX
COLON=AT
BREAK=BREAK BY
FIRST-OF=BREAK BY
FIRSTOF=BREAK BY
FIRST OF=BREAK BY
LAST-OF=BREAK BY
LASTOF=BREAK BY
LAST OF=BREAK BY
BUFFERCOMPARE=BUFFER-COMPARE
BUFFER COMPARE=BUFFER-COMPARE
BUFFERCOPY=BUFFER-COPY
BUFFER COPY=BUFFER-COPY
DESCENDING=BY
COLLATE=BY
CANFIND=CAN-FIND
CAN FIND=CAN-FIND
OTHERWISE=CASE
THROW=CATCH
ROUTINE-LEVEL=CATCH
ROUTINELEVEL=CATCH
ROUTINE LEVEL=CATCH
BLOCK-LEVEL=CATCH
BLOCKLEVEL=CATCH
BLOCK LEVEL=CATCH
ERROR-OBJECT=CATCH
ERROROBJECT=CATCH
ERROR OBJECT=CATCH
Progress.Lang.Error=CATCH
METHOD=CLASS
INTERFACE=CLASS
PROPERTY=CLASS
CONSTRUCTOR=CLASS
DESTRUCTOR=CLASS
USING=CLASS
ENUM=CLASS
NEW=CLASS
SUPER=CLASS
THIS-OBJECT=CLASS
THISOBJECT=CLASS
THIS OBJECT=CLASS
CAST=CLASS
TYPE-OF=CLASS
TYPEOF=CLASS
TYPE OF=CLASS
INHERITS=CLASS
IMPLEMENTS=CLASS
STATIC=CLASS
COLUMNLABEL=COLUMN-LABEL
COLUMN LABEL=COLUMN-LABEL
HELP=COLUMN-LABEL
NO-LABELS=COLUMN-LABEL
NOLABELS=COLUMN-LABEL
NO LABELS=COLUMN-LABEL
DISCONNECT=CONNECT
CONNECTED=CONNECT
LDBNAME=CONNECT
DBNAME=CONNECT
DICTDB=CONNECT
ALIAS=CONNECT
PRODATASET=DATASET
READ-XML=DATASET
READXML=DATASET
READ XML=DATASET
WRITE-XML=DATASET
WRITEXML=DATASET
WRITE XML=DATASET
READ-JSON=DATASET
READJSON=DATASET
READ JSON=DATASET
WRITE-JSON=DATASET
WRITEJSON=DATASET
WRITE JSON=DATASET
DATA-SOURCE=DATASET
DATASOURCE=DATASET
DATA SOURCE=DATASET
DATETIME-TZ=DATETIME
DATETIMETZ=DATETIME
DATETIME TZ=DATETIME
TIMEZONE=DATETIME
ISO-DATE=DATETIME
ISODATE=DATETIME
ISO DATE=DATETIME
DEFIN=DEFI
VARI=DEFI
VARIA=DEFI
VARIAB=DEFI
CHARA=DEFI
CHARAC=DEFI
CHARACT=DEFI
INTE=DEFI
INTEG=DEFI
INTEGE=DEFI
DECI=DEFI
DECIM=DEFI
LOGI=DEFI
LOGIC=DEFI
INITI=DEFI
PARAMET=DEFI
PROCED=DEFI
TRANSACT=DEFI
NO-UND=DEFI
NOUND=DEFI
NO UND=DEFI
UNFORM=DEFI
AVAILA=DEFI
MESS=DEFI
SUBSTR=DEFI
EXCLUSIVE-L=DEFI
EXCLUSIVEL=DEFI
EXCLUSIVE L=DEFI
DISP=DISPLAY
ARRAY=EXTENT
[=EXTENT
[]=EXTENT
FORM=FRAME
VIEW=FRAME
HIDE=FRAME
CLEAR=FRAME
DOWN=FRAME
UNDERLINE=FRAME
WITH=FRAME
HEADER=FRAME
COLOR=FRAME
BROWSE=FRAME
BUTTON=FRAME
MENU=FRAME
WINDOW=FRAME
WIDGET=FRAME
BELL=FRAME
STATUS=FRAME
ENABLE=FRAME
DISABLE=FRAME
IMAGE=FRAME
RECTANGLE=FRAME
SCROLL=FRAME
PUT SCREEN=FRAME
SCREEN-VALUE=FRAME
SCREENVALUE=FRAME
SCREEN VALUE=FRAME
FRAME-VALUE=FRAME
FRAMEVALUE=FRAME
FRAME VALUE=FRAME
INPUT-VALUE=FRAME
INPUTVALUE=FRAME
INPUT VALUE=FRAME
FORWARD=FUNCTION
RETURNS=FUNCTION
GETMESSAGE=GET-MESSAGE
GET MESSAGE=GET-MESSAGE
NUM-MESSAGES=GET-MESSAGE
NUMMESSAGES=GET-MESSAGE
NUM MESSAGES=GET-MESSAGE
GET-NUMBER=GET-MESSAGE
GETNUMBER=GET-MESSAGE
GET NUMBER=GET-MESSAGE
WIDGET-HANDLE=HANDLE
WIDGETHANDLE=HANDLE
WIDGET HANDLE=HANDLE
COM-HANDLE=HANDLE
COMHANDLE=HANDLE
COM HANDLE=HANDLE
TABLE-HANDLE=HANDLE
TABLEHANDLE=HANDLE
TABLE HANDLE=HANDLE
BUFFER-FIELD=HANDLE
BUFFERFIELD=HANDLE
BUFFER FIELD=HANDLE
BUFFER-VALUE=HANDLE
BUFFERVALUE=HANDLE
BUFFER VALUE=HANDLE
DYNAMIC-FUNCTION=HANDLE
DYNAMICFUNCTION=HANDLE
DYNAMIC FUNCTION=HANDLE
DYNAMIC-NEW=HANDLE
DYNAMICNEW=HANDLE
DYNAMIC NEW=HANDLE
THIS-PROCEDURE=HANDLE
THISPROCEDURE=HANDLE
THIS PROCEDURE=HANDLE
SOURCE-PROCEDURE=HANDLE
SOURCEPROCEDURE=HANDLE
SOURCE PROCEDURE=HANDLE
TARGET-PROCEDURE=HANDLE
TARGETPROCEDURE=HANDLE
TARGET PROCEDURE=HANDLE
SELF=HANDLE
VALID-HANDLE=HANDLE
VALIDHANDLE=HANDLE
VALID HANDLE=HANDLE
DELETE OBJECT=HANDLE
CREATE BUFFER=HANDLE
CREATE QUERY=HANDLE
OUTER-JOIN=JOIN
OUTERJOIN=JOIN
OUTER JOIN=JOIN
LEFT=JOIN
MEMPTR=LONGCHAR
RAW=LONGCHAR
CLOB=LONGCHAR
BLOB=LONGCHAR
COPY-LOB=LONGCHAR
COPYLOB=LONGCHAR
COPY LOB=LONGCHAR
RAW-TRANSFER=LONGCHAR
RAWTRANSFER=LONGCHAR
RAW TRANSFER=LONGCHAR
GET-BYTE=LONGCHAR
GETBYTE=LONGCHAR
GET BYTE=LONGCHAR
PUT-BYTE=LONGCHAR
PUTBYTE=LONGCHAR
PUT BYTE=LONGCHAR
BASE64-ENCODE=LONGCHAR
BASE64ENCODE=LONGCHAR
BASE64 ENCODE=LONGCHAR
BASE64-DECODE=LONGCHAR
BASE64DECODE=LONGCHAR
BASE64 DECODE=LONGCHAR
MAX=MAXIMUM
LARGEST=MAXIMUM
MIN=MINIMUM
SMALLEST=MINIMUM
NEXTVALUE=NEXT-VALUE
NEXT VALUE=NEXT-VALUE
CURRENT-VALUE=NEXT-VALUE
CURRENTVALUE=NEXT-VALUE
CURRENT VALUE=NEXT-VALUE
NOECHO=NO-ECHO
NO ECHO=NO-ECHO
UNBUFFERED=NO-ECHO
NO-MAP=NO-ECHO
NOMAP=NO-ECHO
NO MAP=NO-ECHO
BINARY=NO-ECHO
CONVERT=NO-ECHO
NO-CONVERT=NO-ECHO
NOCONVERT=NO-ECHO
NO CONVERT=NO-ECHO
KEEP-MESSAGES=NO-ECHO
KEEPMESSAGES=NO-ECHO
KEEP MESSAGES=NO-ECHO
ECHO=NO-ECHO
TRIGGER=ON
TRIGGERS=ON
TRIGGER PROCEDURE=ON
DISABLE TRIGGERS=ON
ON QUIT=ON STOP
OSCOMMAND=OS-COMMAND
OS COMMAND=OS-COMMAND
UNIX=OS-COMMAND
DOS=OS-COMMAND
OS-COPY=OS-COMMAND
OSCOPY=OS-COMMAND
OS COPY=OS-COMMAND
OS-DELETE=OS-COMMAND
OSDELETE=OS-COMMAND
OS DELETE=OS-COMMAND
OS-RENAME=OS-COMMAND
OSRENAME=OS-COMMAND
OS RENAME=OS-COMMAND
OS-APPEND=OS-COMMAND
OSAPPEND=OS-COMMAND
OS APPEND=OS-COMMAND
OS-CREATE-DIR=OS-COMMAND
OSCREATEDIR=OS-COMMAND
OS CREATE DIR=OS-COMMAND
OS-DIR=OS-COMMAND
OSDIR=OS-COMMAND
OS DIR=OS-COMMAND
OS-GETENV=OS-COMMAND
OSGETENV=OS-COMMAND
OS GETENV=OS-COMMAND
OS-ERROR=OS-COMMAND
OSERROR=OS-COMMAND
OS ERROR=OS-COMMAND
SEARCH=OS-COMMAND
FILE-INFO=OS-COMMAND
FILEINFO=OS-COMMAND
FILE INFO=OS-COMMAND
PAGE-SIZE=PAGE
PAGESIZE=PAGE
PAGE SIZE=PAGE
PAGED=PAGE
PAGE-NUMBER=PAGE
PAGENUMBER=PAGE
PAGE NUMBER=PAGE
PAGE-TOP=PAGE
PAGETOP=PAGE
PAGE TOP=PAGE
PAGE-BOTTOM=PAGE
PAGEBOTTOM=PAGE
PAGE BOTTOM=PAGE
LINE-COUNTER=PAGE
LINECOUNTER=PAGE
LINE COUNTER=PAGE
INPUT PARAMETER TABLE=PARAMETER
PARAMETER BUFFER=PARAMETER
SLEEP=PAUSE
EXTERNAL=PRIVATE
IN SUPER=PRIVATE
CDECL=PRIVATE
SUBSCRIBE=PUBLISH
UNSUBSCRIBE=PUBLISH
OPEN=QUERY
OPEN QUERY=QUERY
GET=QUERY
REPOSITION=QUERY
QUERY-OFF-END=QUERY
QUERYOFFEND=QUERY
QUERY OFF END=QUERY
NUM-RESULTS=QUERY
NUMRESULTS=QUERY
NUM RESULTS=QUERY
RINDEX=R-INDEX
R INDEX=R-INDEX
RECID=ROWID
TO-ROWID=ROWID
TOROWID=ROWID
TO ROWID=ROWID
PERSISTENT=RUN
RUN PERSISTENT=RUN
ASYNCHRONOUS=RUN
DELETE PROCEDURE=RUN
USERID=SESSION
OPSYS=SESSION
PROVERSION=SESSION
PROGRAM-NAME=SESSION
PROGRAMNAME=SESSION
PROGRAM NAME=SESSION
TERMINAL=SESSION
PROPATH=SESSION
COMPILER=SESSION
ENCODE=SESSION
GENERATE-UUID=SESSION
GENERATEUUID=SESSION
GENERATE UUID=SESSION
GUID=SESSION
SETUSERID=SESSION
NEW SHARED=SHARED
GLOBAL=SHARED
EXP=SQRT
SUBST=SUBSTITUTE
TEMPTABLE=TEMP-TABLE
TEMP TABLE=TEMP-TABLE
WORK-TABLE=TEMP-TABLE
WORKTABLE=TEMP-TABLE
WORK TABLE=TEMP-TABLE
WORKFILE=TEMP-TABLE
EMPTY=TEMP-TABLE
PRINTER=THROUGH
CLIPBOARD=THROUGH
INPUT-OUTPUT THROUGH=THROUGH
INPUTOUTPUT THROUGH=THROUGH
INPUT OUTPUT THROUGH=THROUGH
ETIME=TIME
MTIME=TIME
NOW=TODAY
LEFT-TRIM=TRIM
LEFTTRIM=TRIM
LEFT TRIM=TRIM
RIGHT-TRIM=TRIM
RIGHTTRIM=TRIM
RIGHT TRIM=TRIM
TRUNC=TRUNCATE
&UNDEFINE=UNDEFINE
&MESSAGE=UNDEFINE
&ANALYZE-SUSPEND=UNDEFINE
&ANALYZESUSPEND=UNDEFINE
&ANALYZE SUSPEND=UNDEFINE
&ANALYZE-RESUME=UNDEFINE
&ANALYZERESUME=UNDEFINE
&ANALYZE RESUME=UNDEFINE
&SCOPED=UNDEFINE
&SCOP=UNDEFINE
&GLOBAL=UNDEFINE
&GLOB=UNDEFINE
IMPORT UNFORMATTED=UNFORMATTED
SET=UPDATE
PROMPT-FOR=UPDATE
PROMPTFOR=UPDATE
PROMPT FOR=UPDATE
INSERT=UPDATE
CHOOSE=UPDATE
EDITING=UPDATE
READKEY=UPDATE
LASTKEY=UPDATE
WAITFOR=WAIT-FOR
WAIT FOR=WAIT-FOR
APPLY=WAIT-FOR
PROCESS EVENTS=WAIT-FOR
PROCESS=WAIT-FOR
LAST-EVENT=WAIT-FOR
LASTEVENT=WAIT-FOR
LAST EVENT=WAIT-FOR
KEYFUNCTION=WAIT-FOR
KEYCODE=WAIT-FOR
";
