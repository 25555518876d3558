// Runs the cases of data/run.cases, which another implementation of document 01 answered, and compares every number, byte
// and table entry. Those of data/wrong.cases, but the first and the last, expect one thing each that is not so: each has to be
// found to differ, there.
#![tactic(auto)]

mod cases;
mod comparing;
mod differences;
mod lent;
mod printing;

use std::fs::File;
use std::{fs, io};

// The most cases of a file that are run.
const CASE_LIMIT: u64 = 1000000;

#[derive(Clone, Copy, Debug, PartialEq, Eq)]
pub struct Tally {
    pub all: u64,
    pub good: u64,
}

// Reads the entry in front of a wrong case; in front of another there is none.
fn next_entry(file: &mut File, wrong: bool) -> io::Result<Option<cases::Entry>> {
    if !wrong {
        return Ok(None);
    }
    let head = streams::read_array::<_, 12>(file)?;
    Ok(head.and_then(|head| cases::read_entry(&head)))
}

// Runs the file's next case, and gives whether all agrees; nothing where the file has no case any more.
fn run_next(rt: &HostRuntime, file: &mut File, wrong: bool, k: u64) -> io::Result<Option<bool>> {
    let entry = next_entry(file, wrong)?;
    let Some(head) = streams::read_array::<_, 52>(file)? else {
        return Ok(None);
    };
    let c = cases::read_case(&head, entry);
    Ok(Some(comparing::run_case(rt, file, &c, k)?))
}

fn run_all(rt: &HostRuntime, file: &mut File, wrong: bool) -> io::Result<Tally> {
    let mut good: u64 = 0;
    for all in 0..CASE_LIMIT {
        let Some(agrees) = run_next(rt, file, wrong, all)? else {
            return Ok(Tally { all, good });
        };
        good += u64::from(agrees);
    }
    Ok(Tally {
        all: CASE_LIMIT,
        good,
    })
}

fn run_file(rt: &HostRuntime, path: &str, wrong: bool) -> io::Result<()> {
    let mut file = fs::open(rt, path)?;
    let t = run_all(rt, &mut file, wrong)?;
    printing::print_tally(rt, t)
}

fn main(rt: HostRuntime) -> io::Result<()> {
    run_file(&rt, "run.cases", false)?;
    run_file(&rt, "wrong.cases", true)
}
