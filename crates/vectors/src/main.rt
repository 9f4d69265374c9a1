// vectors: plays every schedule that the file `names` names, a name to a line, and holds its whole output to the one that is
// expected: NAME.bytes is the schedule, NAME.out the output. A line for each, and one with the counts.
#![tactic(auto)]

mod compare;
mod files;
mod output;

use compare::report;
use files::{load, load_part};
use output::whole_output;
use std::rt::Files;

const MISSING: &str = "is missing, or has more than 65535 bytes";

// A name, and which of its files cannot be read; false.
fn missing(rt: &impl Print, name: &[u8], what: &str) -> bool {
    let _ = rt.write_all(name);
    let _ = println!(rt; ": its {what} {MISSING}");
    false
}

// Whether a schedule gives what is expected; and its line.
fn is_same<R: Files + Print>(rt: &R, name: &[u8]) -> bool {
    // fixed buffers: nothing is allocated
    let mut schedule = [0u8; 65536];
    let mut wanted = [0u8; 65536];
    let mut got = [0u8; 65536];
    let Some(schedule) = load_part(rt, name, b".bytes", &mut schedule) else {
        return missing(rt, name, "schedule");
    };
    let Some(wanted) = load_part(rt, name, b".out", &mut wanted) else {
        return missing(rt, name, "output");
    };
    report(rt, name, whole_output(schedule, &mut got), wanted)
}

fn is_newline(b: &u8) -> bool {
    *b == b'\n'
}

// The line without its newline; the last line need not have one.
fn name_of(line: &[u8]) -> &[u8] {
    line.strip_suffix(b"\n").unwrap_or(line)
}

// Every name of the list; asking whether one is the same writes its line.
fn vectors<R: Files + Print>(rt: &R, names: &[u8]) {
    let all = names.split_inclusive(is_newline).count();
    let same = names
        .split_inclusive(is_newline)
        .filter(|line| is_same(rt, name_of(line)))
        .count();
    let _ = println!(rt; "{same} of {all} the same");
}

fn main(rt: HostRuntime) {
    let mut names = [0u8; 65536];
    match load(&rt, b"names", &mut names) {
        Some(names) => vectors(&rt, names),
        None => {
            let _ = println!(rt; "the file names {MISSING}");
        }
    }
}
