// Prints the name of each example of data/examples.txt, and what fprun replies to it. An example is four lines: a name, the
// budgets, the program and the object. Then the same of data/inputs.cases, where inputs of every shape stand.
#![tactic(auto)]

ghost use Rattle.std.specs.Prelude.{length, IfOk};
ghost use Rattle.examples.specs.Ahead.{Further};

mod inputs;
mod printing;

use std::{fs, io};

// The place behind the text's first line.
fn behind_line(s: &[u8]) -> usize
    ensures { Further 0 (length s.now) result }
{
    s.iter()
        .position(|b| *b == b'\n')
        .map_or(s.len(), |i| i + 1)
}

// Prints the text's first example, and gives the place behind it.
fn print_example(rt: &HostRuntime, s: &[u8]) -> io::Result<usize>
    ensures { IfOk result (λ end. Further 0 (length s.now) end) }
{
    let budgets = behind_line(s);
    let program = budgets + behind_line(&s[budgets..]);
    let object = program + behind_line(&s[program..]);
    let end = object + behind_line(&s[object..]);
    rt.write_all(&s[..budgets])?;
    printing::print_reply(rt, &s[budgets..end])?;
    Ok(end)
}

fn print_all(rt: &HostRuntime, s: &[u8]) -> io::Result<()> {
    let mut rest = s;
    while !rest.is_empty() {
        let end = print_example(rt, rest)?;
        rest = &rest[end..];
    }
    Ok(())
}

fn print_examples(rt: &HostRuntime, path: &str) -> io::Result<()> {
    let mut file = fs::open(rt, path)?;
    let mut text: [u8; 65536] = streams::filled(0);
    let n = streams::read_full(&mut file, &mut text)?;
    print_all(rt, &text[..n])
}

fn print_inputs(rt: &HostRuntime, path: &str) -> io::Result<()> {
    let mut file = fs::open(rt, path)?;
    inputs::print_all(rt, &mut file)
}

fn main(rt: HostRuntime) -> io::Result<()> {
    print_examples(&rt, "examples.txt")?;
    print_inputs(&rt, "inputs.cases")
}
