//! The schema and the sources of a bank (this project's choice).

/// The schema file: the table of accounts, each with its number and its balance.
pub const BANK_SCHEMA: &[u8] = b"ADD TABLE \"account\"

ADD FIELD \"num\" OF \"account\" AS integer
  ORDER 10

ADD FIELD \"balance\" OF \"account\" AS int64
  ORDER 20

ADD INDEX \"num\" ON \"account\"
  UNIQUE
  PRIMARY
  INDEX-FIELD \"num\" ASCENDING

.
";

/// The source of the client `setup`: it deletes all accounts, and creates those of its input.
pub const SETUP_SOURCE: &[u8] = b"FOR EACH account EXCLUSIVE-LOCK: DELETE account. END.
REPEAT: CREATE account. IMPORT account. END.
";

/// The source of a client that makes transfers: for each line `a b amount` of its input it takes the
/// amount from the account with the number a and adds it to that with the number b. It locks the lower
/// number first.
pub const TRANSFER_SOURCE: &[u8] = b"DEFINE VARIABLE a AS INTEGER NO-UNDO.
DEFINE VARIABLE b AS INTEGER NO-UNDO.
DEFINE VARIABLE x AS INTEGER NO-UNDO.
DEFINE BUFFER p FOR account.
DEFINE BUFFER q FOR account.
REPEAT:
  IMPORT a b x.
  IF a < b THEN DO:
    FIND p WHERE p.num = a EXCLUSIVE-LOCK.
    FIND q WHERE q.num = b EXCLUSIVE-LOCK.
  END.
  ELSE DO:
    FIND q WHERE q.num = b EXCLUSIVE-LOCK.
    FIND p WHERE p.num = a EXCLUSIVE-LOCK.
  END.
  p.balance = p.balance - x.
  q.balance = q.balance + x.
END.
";

/// The source of the client `total`: the sum of the balances, and that of the balances times the
/// numbers of their accounts.
pub const TOTAL_SOURCE: &[u8] = b"DEFINE VARIABLE t AS INT64 NO-UNDO.
DEFINE VARIABLE w AS INT64 NO-UNDO.
FOR EACH account NO-LOCK:
  t = t + account.balance.
  w = w + account.num * account.balance.
END.
PUT UNFORMATTED \"total \" t \" weighted \" w SKIP.
";
