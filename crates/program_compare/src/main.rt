// Compares what the library answers with what it must: the specimens of document 01, the messages of read.bin and the steerings of steer.bin.
#![tactic(auto)]

mod specimens;
mod steerings;
mod vectors;

use program_parts::Tally;
use program_parts::cases::{MOST_CASES, Verdict, left_after, name_case};
use std::fs::File;
use std::io;
use std::io::Read;
use std::rt::Files;

// `next` reads a case and compares it.
fn compare_all<I: Read, F: FnMut(&mut I) -> io::Result<Verdict>>(
    rt: &impl Print,
    input: &mut I,
    mut next: F,
) -> io::Result<Tally>
    requires { F.IsAlwaysCallable next }
{
    let mut tally = Tally::default();
    let mut left = MOST_CASES;
    while left > 0 {
        let verdict = next(input)?;
        name_case(rt, tally, verdict)?;
        tally = tally.told(verdict);
        left = left_after(left, verdict);
    }
    Ok(tally)
}

// A file that cannot be opened is told on standard error.
fn compare_file<R: Files + Print + Eprint, F: FnMut(&mut R::File) -> io::Result<Verdict>>(
    rt: &R,
    name: &str,
    next: F,
) -> io::Result<()>
    requires { F.IsAlwaysCallable next }
{
    match File::open(rt, name) {
        Ok(mut file) => {
            let tally = compare_all(rt, &mut file, next)?;
            println!(rt; "{tally}")
        }
        Err(error) => eprintln!(rt; "{name}: {error}"),
    }
}

fn compare<R: Files + Print + Eprint>(rt: &R) -> io::Result<()> {
    specimens::compare_specimens(rt)?;
    compare_file(rt, "read.bin", |file| vectors::compare_next(file))?;
    compare_file(rt, "steer.bin", |file| steerings::compare_next(file))
}

fn main(rt: HostRuntime) -> io::Result<()> {
    compare(&rt)
}
