// What is printed of a case that does not agree, and of all of them at the end.
use crate::Tally;
use crate::differences::Difference;
use language::Answer;
use std::io;

fn print_answer(rt: &HostRuntime, a: Answer) -> io::Result<()> {
    let mut line = [0u8; 66];
    let n = call_lines::print_numbers(&mut line, a);
    rt.write_all(&line[..n])
}

// Prints where case k is not as expected: the place of the entry that differs, or the number that is expected and the one
// that was answered.
pub fn print_difference(
    rt: &HostRuntime,
    k: u64,
    d: Difference,
    wanted: Answer,
    a: Answer,
) -> io::Result<()> {
    print!(rt; "case {k} differs in {}", d.field)?;
    if let Some(place) = d.place {
        return println!(rt; " at {place}");
    }
    print!(rt; "\n  expected ")?;
    print_answer(rt, wanted)?;
    print!(rt; "  answered ")?;
    print_answer(rt, a)
}

pub fn print_tally(rt: &HostRuntime, t: Tally) -> io::Result<()> {
    println!(rt; "{} cases, {} agree", t.all, t.good)
}
