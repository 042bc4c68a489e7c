//! Histories: what the callers of a trace did, in one order; which are legal and of a trace; the history of a trace
//! whose lines run in their order; and the history of a finished run, gathered from its journal and the logs of its callers.

// The problem. What several threads did has to be told as one order that explains every result, and a text that claims such an order has to be
// judged. A run leaves a journal of calls and, for each caller, a log of what it read. This crate says which orders are legal
// (specs/Histories.antt), makes the order of a run, and judges one that somebody hands in.
//
// The order. A call's version is its place in the journal; a read (a fault that expands no stack, a list, a fork) has the version that it saw.
// Items go by version; at one version the call comes first, then the reads by caller (`place_at`). So a run has one history, and a history has
// one text:
//
//    journal   v1 A: mmap        v2 B: mmap            v3 A: munmap
//    log of A                              v2: fault                v3: maps
//    log of B         v1: fault            v2: fault
//    history   v1 A, v1 B fault, v2 B, v2 A fault, v2 B fault, v3 A, v3 A maps
//
// Three ways to make it, each by its input:
//
//    gather     logs of many callers: each log is in order already, so merging it with the journal is linear (`threads`)
//    label      one caller ran the lines of all: the item of line n gets line n's caller, then reads of one version are put in order (`serial`)
//    in_turn    as `label`, where the order of the lines is that of the history already: told item by item, and no list is made
//
// `label` and `in_turn` give the same items; the second saves 128 bytes a line.
//
// Which are legal and of a trace. `check` walks over the items once, with `Progress` (whose line comes next, how many calls so far, which caller
// read last) and a `PlainSpace` that makes each call again. An item is accepted if
//
//    - it answers the next line of its caller, and the line that this one names by `after=` is answered already,
//    - its version counts the calls so far, and reads of one version come by ascending caller,
//    - its result is the one that the space gives there.
//
// At the end no line may be left. The first item that fails is reported with what was expected (`BadEntry`). A fault that expands a stack is a
// call (a touch): the space decides whether a fault's line is one (`made_call`), since the line can't know.
//
// A line that forks makes a child, which has lines, a space and a history of its own: `SpaceLines` are the lines of one space, and `check_after`
// judges a history that begins with entries which the parent made.
//
// To be changed freely: how orders are found; a sort of all items would do. Not to be changed: the order of reads at one version (a text is
// compared byte by byte), and that `same.rt` compares field by field: a derived comparison isn't proved for values with so many fields. Real time
// is nowhere in it: the order is sequentially consistent, and not linearizable. In Linux nothing keeps such a journal; the nearest are traces of
// tracepoints.

#![tactic(auto)]

mod answers;
mod callers;
mod checking;
mod gathering;
mod items;
mod labelling;
mod laws;
mod made;
mod numbered;
mod ordering;
mod parents;
mod places;
mod progress;
mod run_laws;
mod same;
mod space_lines;
mod turns;

pub use answers::{Answer, BadEntry, CheckError};
pub use callers::{Callers, MOST_THREADS};
pub use checking::{check, check_after};
pub use gathering::gather;
pub use items::{Content, History, Item};
pub use labelling::{label, label_space};
pub use laws::{
    lines_of_a_trace_ask_for_themselves, most_threads, refused_is_not_legal,
    serial_history_by_version, serial_history_is_legal, sort_by_caller_is_stable,
};
pub use made::made_call;
pub use numbered::are_numbered;
pub use parents::lines_of_parent;
pub use places::places_by_caller;
pub use progress::Progress;
pub use run_laws::{
    callers_share_the_lines, labels_make_the_serial_history, no_lines_past_the_callers,
    one_operation_more, run_makes_a_legal_history, touches_that_grew_are_made,
};
pub use space_lines::{SpaceLines, has_forks};
pub use turns::{Turn, Turns, in_turn};
