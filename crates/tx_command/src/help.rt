//! The texts of help, in lines of at most 80 places. docs/txkv.1 is made of them.

pub(crate) static ABOUT: &str = "The transaction layer of a key-value store, in one process";

pub(crate) static EXAMPLES: &str = "Examples:
  txkv simulate push.script           Run a script of sessions
  txkv explain push.script            Show the run, a column a session
  txkv generate --seed 7              Write a script by chance
  txkv reduce --keep E1 push.script   Make a script shorter that shows an E1
  txkv run --workers 4 transfers.run  Run sessions side by side, on threads
  txkv check lost_update.trace        Check a trace of machine steps
  txkv import read_committed.history  Judge a history of any store
  txkv example push.script            Print an example, as those named here
  txkv help begin                     Tell of a step, a delivery, a refusal
  txkv simulate --help                Show the steps of a script

Exit status:
  0  well
  2  a fault of the input or of the command line
  3  the verdict no
  4  a read, a write or a growth failed
  5  the verdict open";

pub(crate) static SIMULATE_ABOUT: &str =
    "Run a script of sessions, and write one reply line a step";

/// The steps of a script, and how it is run.
pub static SIMULATE_HELP: &str =
    r#"A script has one step a line, each a JSON array; s names a session, D is a
delivery:
  ["regions",[key,..]]           Line 1 alone: the keys between the regions
  ["begin",s]                    Begins a transaction at a new timestamp
  ["put",s,key,value]            Enters a put into its write buffer
  ["insert",s,key,value]         Enters a put of a key that must have no value;
                                 E17 where it has one
  ["delete",s,key]               Enters a delete
  ["lock",s,key]                 Enters a lock, which changes nothing
  ["get",s,key] D                Reads a key, from its buffer or at its start
  ["scan",s,from,to,limit] D     Reads a range at its start
  ["declare",s,"two-phase",ttl]  Fixes its write set; its locks live ttl ticks
  ["declare",s,"async",ttl]      The same, to commit with no second phase; a
                                 greatest commit timestamp may follow
  ["prewrite",s] D               Locks the next key
  ["draw",s]                     Draws its commit timestamp
  ["commit",s] D                 Commits the primary, then each other key
  ["abort",s] D                  Rolls the next key back
  ["heartbeat",s,ttl] D          Lets the primary's lock live longer
  ["finish",s]                   Tells its outcome; the session is gone
  ["stop",s]                     Leaves its transaction as it is; it is gone
  ["resolve",s,now]              Looks into the last lock that stood in its way
  ["deliver",name]               Takes a request that is held
  ["gc",ts]                      Resolves what is below ts, drops old versions
  ["read",key,ts]                Reads a key at a timestamp
  ["tick",n]                     Draws n ticks
  ["versions",key]               Shows what stands on a key: its lock, its write
                                 records, its long values
A delivery is nothing, or says what becomes of the request:
  "lose"                         It never arrives
  "lose-reply"                   It is taken, and its session hears nothing
  "repeat"                       It is taken twice, and the second reply heard
  "hold",name                    It is kept under a name, and not taken, until
                                 that is delivered

Each reply is the number of the line and the step's words; docs/SCRIPT.md has
all replies, refusals and causes.
With --check, a script that ended without a fault is followed by the machine's
steps of its run, in the form of txkv check. Of one at fault it is told whether
the lines before the fault are a run.
With --steps, those steps are all that is written, up to a fault and its line;
with --beside as [n,step], n the line that made it, which txkv check reads as
well.
With --comments, the lines that are passed over have no number in the replies;
sentences on faults name the lines of the file.
With --go-on a fault is told, leaves all as it was, and the next line is read,
from a file or a pipe: so a program can use a store by lines, as
clients/python/txkv.py does.
Typed at a terminal, a fault is told and the next line read in its place. There
a step may be typed as A put a x, and :help tells of :undo, :keys and others.

Examples:
  txkv simulate commit_then_read.script         One transaction and a reader
  txkv simulate --check push.script             What it was for the machine
  txkv simulate --steps push.script | txkv check
      Its steps alone, and what the checker says of them
  txkv simulate --go-on push.script
      Each line that is a fault is told, and the others are played
  echo '["begin","A"]' | txkv simulate
      [1,"start",1], status 0
  echo '["get","A","a"]' | txkv simulate
      [1,"E16","name"], no session is live, status 2"#;

pub(crate) static EXPLAIN_ABOUT: &str = "Run a script as simulate does, and show its run";

pub(crate) static EXPLAIN_HELP: &str =
    r#"A session is a column, a step a line. Beside each step and its reply stands what
changed of each key: its lock, and write records that came (+) and went (-). A
refusal has its reason on a line of its own. With --machine a line that made
steps of the machine has these below it, up to a fault. With --html the run is a
page for a browser, which one steps through. docs/EXPLAIN.md has all forms.
With --from, --to, --keys and --sessions text or drawing show a part of the run,
with --width text has lines of so many places; a page takes none of these. Names
are parted by commas. A name that the script does not have is a fault, status 2.

Examples:
  txkv explain push.script
      A reader that need not wait, step by step
  txkv explain --from 9 --to 14 --keys b push.script
      What came of a lock in its way
  txkv explain --svg push.script > push.svg
      The same as a drawing
  txkv explain --html push.script > push.html
      The same as a page: arrow keys step, p hides what comes
  txkv explain --machine falls_back.script
      The line at which each transaction was declared and decided"#;

pub(crate) static GENERATE_ABOUT: &str =
    "Write a script by chance, with requests lost, repeated, held and late";

pub(crate) static GENERATE_HELP: &str =
    r#"The script ends well in simulate: each line was tried before it was written, and
the next one thought of by its reply. Sessions read, scan, put, insert, delete,
lock and commit keys a, b, .. in both ways, resolve what is in their way, stop,
and are told of what arrives late; old versions are collected. The same options
give the same script.

Examples:
  txkv generate --seed 7 | txkv simulate --check
      A run by chance, and that it was one of the machine
  txkv generate --seed 7 | txkv explain
      The same, shown
  txkv generate --seed 7 --keys 1 --faults 40
      Much strife, and many requests lost
  txkv generate --seed 137 | txkv reduce --keep '"E5"'
      What it takes to show an E5"#;

pub(crate) static REDUCE_ABOUT: &str = "Make a script shorter, as long as a reply shows a text";

pub(crate) static REDUCE_HELP: &str =
    r#"Lines are left out, many at once and then fewer, as long as the script still
ends as it did, well or by a fault, and a line of its replies has the text in
it. What is written is a script that shows it, and no longer does without any
one of its lines; there may be a shorter one. Each try plays the script as
simulate does, so it takes about the square of its length. Where no reply of the
script itself has the text, nothing is written, with status 3.

Examples:
  txkv reduce --keep '"E5"' long.script     A shorter one that shows an E5
  txkv reduce --keep '"lost"' long.script   A shorter one that loses a request"#;

pub(crate) static RUN_ABOUT: &str = "Run the sessions of a script side by side, on several threads";

pub(crate) static RUN_HELP: &str =
    r#"The script is read whole. Its seeds run in the order of their lines, and then
the lines of each session in theirs, the sessions side by side. s names a
session; mode is "two-phase" or "async":
  ["regions",[key,..]]            Line 1 alone: the keys between the regions
  ["seed",key,value]              Puts a value on a key, in a transaction of its
                                  own
  ["transfer",s,from,to,n,mode]   Moves the amount n between the balances of two
                                  keys, in one transaction
and the steps of sessions as txkv simulate --help has them, with no delivery:
begin, put, delete, lock, insert, get, scan, declare, prewrite, draw, commit,
abort, heartbeat, finish, stop, resolve

A balance is a text of 1 to 15 decimal digits; any other text, or none, is a
balance of 0.
The replies come in the order of the lines. Then
["outcomes",committed,aborted,unknown,read-only] counts the outcomes that were
told, and ["total",n] is the sum of all balances.

Examples:
  txkv run --workers 4 transfers.run
      Two accounts, and transfers between them and a third
  txkv run --workers 4 --gc-life-time 50000 transfers.run
      Old versions are collected beside them; a transaction that is open for
      more than 50,000 ticks may be told E7
  echo '["seed","a","5"]' | txkv run --workers 1
      [1,"ok"], ["outcomes",0,0,0,0], ["total",5], status 0
  echo '["get","A","a"]' | txkv run --workers 1
      [1,"E16","name"] and both sums, status 2"#;

pub(crate) static CHECK_ABOUT: &str = "Check a trace: is it a run of the one-step machine?";

pub(crate) static CHECK_HELP: &str =
    r#"The machine commits each transaction in one step. A trace has one step a line,
each a JSON array:
  ["draw",3]                        The oracle gives the number 3, above all
                                    before
  ["begin",3]                       A transaction starts at 3
  ["declare",3,[["a","put","x"]]]   It fixes its write set, also by
                                    ["b","delete"], ["c","lock"] and
                                    ["d","insert","y"]
  ["commit",3,4]                    It commits at 4
  ["abort",3]                       It is aborted
  ["read",4,"a","x"]                A read of a at 4 finds x; null is nothing
  ["scan",4,"a","m",9,[["a","x"]]]  A read of the keys from a up to m, of at
                                    most 9 rows
  ["answer",3,"committed",4]        It is told what became of it, also by
                                    ["answer",3,"aborted"]

docs/SCRIPT.md has when the machine makes each step, and what --why tells.

Examples:
  txkv check commit_then_read.trace
      ["check","yes"], status 0
  txkv check lost_update.trace
      ["check","no",10], the first line refused, status 3
  txkv check --why lost_update.trace
      The same, and why: a line ["why",10,"conflict",{..}]
  txkv check --all lost_update.trace
      A line for each step refused, as if it were not there for those behind it
  echo '["draw"]' | txkv check
      [1,"E16","form"], the first line that is no step, status 2"#;

pub(crate) static IMPORT_ABOUT: &str = "Judge a history of any store: is it snapshot isolation?";

pub(crate) static IMPORT_HELP: &str =
    r#"A history has one transaction a line, each a JSON object, of one process in the
order in which it ran them:
  {"id":1,"type":"ok","process":3,"start":10,"end":12,"ops":[..]}
type is "ok" where it committed, "fail" where it did not, "info" where nobody
knows. id, process, start and end may be left out; start and end are numbers of
one clock. Keys are strings or whole numbers, values also true or false; each
value is given to a key once, or again where one that failed gave it and none of
its values was read. An operation is one of
  ["append",key,value]  It put the value behind those of the key's list
  ["r",key,[value,..]]  It read the list
  ["w",key,value]       It wrote the value: a key is a list or such a register
  ["r",key,value]       It read the value, or null for none

The answer is one line, yes with status 0, no with 3, open with 5. Where nobody
read in which order two put values into a key, an order is looked for; it is
open where that met N circles (--budget N), or a key has too many such values.
docs/HISTORIES.md has what each answer means, and the names of a no.
With --all, what those read that a no tells of is taken as not known, and what
is left is judged again: a line for each no.

Examples:
  txkv import read_committed.history
      ["import","yes",{..}], or ["import","no",name,[[id,edge,key,id],..]]
  txkv import --strict read_committed.history
      The same, by the clock as well
  txkv import --level serializable read_committed.history
      Whether it is serializable; with --strict, strictly serializable
  txkv import --trace read_committed.history
      A yes as steps, for txkv check
  txkv import --dot read_committed.history
      A no for Graphviz
  txkv import --svg read_committed.history
      A no as a drawing
  txkv import --all read_committed.history
      Every no, a line each
  txkv import --all --html read_committed.history > page.html
      Every no on a page: its line, why, and its picture
  txkv import --budget 1000000 read_committed.history
      The same as the first, with more patience"#;

pub(crate) static EXAMPLE_ABOUT: &str = "Print an example: a script, a run, a trace, a history";

pub(crate) static EXAMPLE_HELP: &str = "Examples:
  txkv example                              Lists them
  txkv example push.script > push.script    Keeps one in a file
  txkv example push.script | txkv explain   Shows its run";

pub(crate) static REFUSALS_ABOUT: &str = "Tell what each refusal means, E1 to E17";

/// The refusals, and what each means.
pub static REFUSALS: &str =
    r#"A refusal is the reply of its line, and the script goes on; with E16 it ends.
Behind the number stands what is in brackets:
  E1   KeyIsLocked        Another transaction's lock stands in the way [the
                          lock's key, start, primary, minimum, mode]
  E2   WriteConflict      A newer committed record of another transaction stands
                          on the key [its start and commit]
  E3   AlreadyRolledBack  The transaction's rollback stands on the key
  E4   AlreadyCommitted   The transaction's commit stands on the key [its
                          commit]
  E5   CommitTsExpired    A commit below the lock's minimum: another may be
                          drawn [the minimum]
  E6   TxnLockNotFound    Neither lock nor record of the transaction stands on
                          the key
  E7   BelowSafePoint     A timestamp below the safe point, or a start below the
                          last collection [that safe point]
  E8   FutureTimestamp    A timestamp above the last number that the region
                          loaded [that number]
  E9   LocksRemain        Collection finds a lock that started below the safe
                          point [the lock, as E1]
  E10  TxnNotFound        A status is asked, nothing stands, and no rollback is
                          wanted
  E11  OracleSpent        A seat has drawn its 2^32 ticks
  E12  OutOfMemory        A growth was refused
  E13  KeyLength          A key not of 1 to 512 bytes
  E14  ValueLength        A value over 65,536 bytes
  E15  TooManyKeys        Over 1,024 keys; of an async transaction over 256
  E16  ScriptFault        A script or a trace cannot go on [the cause]: standard
                          error says why
  E17  AlreadyExists      A key that is to be inserted has a value, in the
                          buffer or at the start"#;

pub(crate) static COMPLETIONS_ABOUT: &str = "Write what completes command lines in a shell";

pub(crate) static COMPLETIONS_HELP: &str = r#"Examples:
  txkv completions bash > ~/.local/share/bash-completion/completions/txkv
  txkv completions zsh > ~/.zfunc/_txkv
      With ~/.zfunc among the folders of fpath
  txkv completions fish > ~/.config/fish/completions/txkv.fish"#;
