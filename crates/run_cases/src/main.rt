//! Runs the cases of its standard input over the outside in memory, and prints what they come to.
//!
//! Each line of the input is a directive. It is printed as it stands, and after it, indented and with the name of its case, what it comes to;
//! a line that is malformed or can't be answered comes to a line that begins with `?`. An empty line, and one whose first word is `#`, says
//! nothing. A directive is a word, with its arguments after single blanks; a text or a name that comes last goes to the end of the line. Bytes
//! are written as they are, or by the escapes `\n`, `\t`, `\\` and `\xNN`; none are written `""`. Bytes that are printed stand between
//! quotes, as Rust escapes them; of more than 1000 only their number and their digest are printed.
//!
//! `case NAME` names the case that the lines after it belong to, up to the next one. No two cases have one name.
//!
//! What a run begins with is the root, which stays until the next `new`:
//!
//! - `new`: a root without names;
//! - `new NAME`: the root that was shared under this name;
//! - `folder NAME`: a folder without files;
//! - `entry NAME TEXT`: the folder of a table, with the entry of this text;
//! - `part NAME ROWS COLUMN ..`: the folder of a part, with the files of its columns and a manifest of them and of that many rows;
//! - `file FILE BYTES`: a file in the folder that was set up last, in place of one of its name;
//! - `share NAME`: a name for the root as it is set up. Answers of runs over it, and over roots that were begun from it, have the name too.
//!
//! What is set up for the next run alone:
//!
//! - `damage NAME FILE HOW`: a file of the root that is `missing`, `cut N` off after N bytes, `longer` by a byte of zero, or has the lowest
//!   bit of the byte at a place `turned PLACE`;
//! - `fail ARM STAGE KIND NUMBER`: a call that fails, counted from 0 among those of its kind, of the disk (`- -`), of an arm (`0 -`) or of a
//!   stage (`0 1`);
//! - `stop CALLS`: the disk fails each call after that many;
//! - `bytes`: each read gives one byte, and each write takes one;
//! - `read NUMBER`, `write NUMBER`: a read or a write that fails, from 0;
//! - `words WORD ..`: the words of the command line.
//!
//! The script stays until the next one. `script TEXT` begins it, and further pieces are `add TEXT` and `repeat COUNT TEXT`.
//!
//! What runs. Where a script may stand after the word, it replaces the one before. An answer is the status, how many commands were
//! accepted, and the replies.
//!
//! - `run [SCRIPT]`: over the root;
//! - `probe [SCRIPT]`: the same, and whether the root, with each byte of its files, is as it was;
//! - `again [SCRIPT]`: over what the last run left, with the commands that were accepted before;
//! - `check [SCRIPT]`: over an empty disk, in whole pieces and by single bytes: whether both write and accept the same;
//! - `names`: the names that the last run left, those that are not settled too;
//! - `left NAME FILE`: the bytes of a file of such a name;
//! - `crash CHOICE`: a crash after the last run, by the number of the choice; the commands that were accepted are forgotten;
//! - `each read COUNT`, `each write COUNT`, `each stop COUNT`: over the root, that many times, with the read or write of each number from 0
//!   failing, or the disk stopped after that number of calls. A line for each has the number;
//! - `crashes FIRSTS NEXTS SCRIPT`: a first run of the script that stands, over an empty disk that stops after 0 calls, after 1, and so on up
//!   to FIRSTS; a crash; a next run, of the script of the line, over each root that the crash may leave, whose disk stops after 0 calls up
//!   to NEXTS; a crash; and a last run of that script over each root that this one may leave. A line for each first run has its answer, one
//!   for each crash its choice, and after that one for each next run its answer, and after `then` the answers of the last runs, equal
//!   ones once. A next run whose line would be that of the one before has none;
//! - `stops FIRSTS NEXTS SCRIPT`: the same without the first crash.
//!
//! What is found without a run:
//!
//! - `named NAME SCRIPT`: nothing; the lines after it cite the script by the name;
//! - `allows NAME NAME TEXT`: whether a script may leave the history of another one and print the text;
//! - `row TYPE LINE`: the line that is printed of the row of one column that a line is;
//! - `values TYPE COUNT BYTES`: how many values are read of the bytes of a column, none where they are none; and the values as a line, or
//!   where the first fault is;
//! - `block NUMBER`: how many rows a block without rows has, and one of a row with this number;
//! - `core EVENT;EVENT ..`: what the core gives at each event, one after another, from the state before any event: `create TABLE`,
//!   `insert TABLE NUMBER NUMBER ..`, `alter TABLE delete CONDITION`, `alter TABLE update NAME=VALUE,.. CONDITION`, `take TABLE`,
//!   `read SNAPSHOT`, `crash`, or `crash done` or `crash lost` with an accept within which the crash comes, and which is done or not. A
//!   value is a number, a column, or a column with a number after `+` or `-`; a condition is a column, a comparison and a number with
//!   blanks between them, or nothing. Columns are of type UInt8, and signs of Int8, where 0 is -1; `a` is the key. By the first letter of
//!   its name a table has columns `p` and `a` (`p`: its partition column is `p`), `a` and `b` (`r`: merges leave the last row; `s`: the
//!   sum of `b`), `a`, `b` and `c` (`m`: merges leave all rows; `n`: that with the greatest `b`; `q`: the sum of `b`; `g`: the greatest
//!   `b`; `c`: rows are cancelled by the sign `b`), or `a`, `b`, `c` and `s` (`d`: rows of one version `b` are cancelled by the sign `s`),
//!   and an insert adds one row; each other table has one column `a`, and an insert adds a row of each of two numbers;
//! - `course EVENT;EVENT ..`: what comes of events over such tables, one after another. There are also puts of merges, `put TABLE PARTITION
//!   FIRST COUNT`, with the number of a partition or `all`, the place of the first part there and how many neighbours are merged; puts of
//!   rewrites, `rewrite TABLE PARTITION PLACE COUNT`, with the place of the part and how many of the mutations for which it waits are
//!   applied; and crashes within them, `crash done put ..` or `crash lost put ..`: how many of each outcome there were, and after how many
//!   events some visible part of a table did not stand for the history;
//! - `steps EVENT;EVENT ..`: what each of such events gives, or that it may not come: a rewrite of a part that waits for fewer mutations,
//!   or a mutation that the rows of its table may not have; and whether after each event the visible parts stood for the history;
//! - `pin LENGTH NUMBER NUMBER`: what is pinned of a table with one part of two rows, at a length of the history: the schema, the part and
//!   the length;
//! - `twin KIND ..`: a value and its twins: `number NUMBER` (of 8, of 32 and of 64 bits), `name BYTES`, `type TYPE`, `schema SCRIPT` (of
//!   the first table that a script makes), `row TYPE LINE`, `part NUMBER NUMBER` (what is kept of a part of two rows), or
//!   `stored ROWS NAME`: a part with that many rows, of a folder that the last run left;
//! - `grow CREATE`: the script's bytes are lines of data of the table that the statement makes. A part of their rows is written at once, and
//!   in each way of adding the first of them as a block and the others one by one: how many rows and files it has, and in how many of these
//!   ways each file has the same bytes; then one is given up, and how many files a stage has that the arm makes after it;
//! - `append FILE BYTES FILE BYTES ..`: the bytes of each file of a stage whose files grew by these pieces, in the order in which the files
//!   were made, and whether they are synced;
//! - `stream CREATE`: the script's bytes are lines of data of the table that the statement makes, sorted by its key, with a bar after those of
//!   each input. Parts of the inputs are merged granule by granule: how many inputs, rows, and rows that are left there are, and how many
//!   rows at most were read and not yet handed on, and whether too many waited that the rule gave, or a count is left at the end; whether
//!   the files are those of a part of the rows that are left of whole inputs in memory, and the mark of the manifest; the rows of each
//!   granule, read by itself; and how many readers of chosen granules, of how many, give the rows of these.
//!
//! What engines' rules leave, of rows of small tables: `plain`, `replacing`, `replacing-version`, `summing`, `collapsing`, `versioned` or
//! `aggregating`. A row is written in letters, one for each column of the table: the key, for `versioned` also the version; then for
//! `replacing-version` a version, for `summing` two numbers, for `collapsing` and `versioned` a sign, `+` or `-`; then the mark, which tells
//! rows apart. For `aggregating` a letter for each function follows the key. A digit of a column that is summed is that many quarters of
//! all numbers of its type, so that sums wrap at 4. Commas stand between rows, and `-` for no row.
//!
//! - `fold TABLE LIST ..`: what the rule's three calls leave of each list of rows of one key. The key is not written; a mark may be left out
//!   that is the row's place, and equal letters of `aggregating` are written once. After a list may stand `=` and results, with bars between
//!   them, and `*` for the mark of any of the rows: then what is left is to be one of these, and is printed only where it is none. How many
//!   lists there were is printed, with how many rows, and how many rows were left;
//! - `merge TABLE INPUTS ..`: the same of merges of sorted inputs, with slashes between them. The rows have their keys;
//! - `random SEED COUNT TABLE`: what comes of that many random lists of up to six rows of one key, cut into up to four runs, which are merged
//!   in every order: how many merges there were, how many different results FINAL gave at the end of them, and how many results of merges or
//!   of FINAL, which is asked after each merge, may not be.
#![tactic(auto)]

use mt_program::run;
use run_memory::disk_mem::{MemSource, OpenGate};
use run_memory::{Bench, Left, Machine};
use std::alloc::Global;
use std::io;
use std::sync::Wait;
use std::thread::Threads;

/// The program, as what runs scripts.
#[derive(Drop)]
struct Program {
    alloc: Global,
}

impl Machine for Program {
    fn run<R: Threads + Wait + Sync>(
        &self,
        rt: &R,
        words: &[String],
        source: MemSource,
        left: Left,
    ) -> Left {
        let mut source = source;
        let mut sink = left.sink;
        let done = run(
            rt,
            self.alloc,
            words,
            &mut source,
            &mut sink,
            left.disk,
            left.annals,
            &mut OpenGate,
        );
        Left {
            status: done.status,
            disk: done.disk,
            annals: done.annals,
            sink,
        }
    }
}

fn main(rt: HostRuntime) -> io::Result<()> {
    let alloc = rt.alloc();
    let program = Program { alloc };
    let mut bench = Bench::new(alloc);
    for line in rt.lines(alloc) {
        let line = line?;
        bench.tell(&program, &rt, &line);
        rt.print(bench.answer.text.as_str())?;
    }
    Ok(())
}
