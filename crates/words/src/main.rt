// Prints place and length of each word, number and mark of standard input, one to a line, and at the end the text's length
// and 0. It reads up to 16,384 bytes.
#![tactic(auto)]

ghost use Rattle.std.specs.Prelude.{◌≡◌, ltb, IfOk};

use language::Token;
use std::io;

// Prints one line, and answers whether it is a word's.
fn show(rt: &impl Print, t: Token) -> io::Result<bool>
    ensures { IfOk result (λ more. more ≡ ltb 0 t.length) }
{
    println!(rt; "{} {}", t.place, t.length)?;
    Ok(0 < t.length)
}

// Steps through the text from its start to its end.
fn show_all(rt: &impl Print, text: &[u8]) -> io::Result<()> {
    let mut r = stepper::start(text);
    while show(rt, stepper::word(r))? {
        r = stepper::behind(r);
    }
    Ok(())
}

fn main(rt: HostRuntime) -> io::Result<()> {
    let mut buf: [u8; 16384] = streams::filled(0);
    let n = streams::read_full(&mut rt.stdin(), &mut buf)?;
    show_all(&rt, &buf[..n])
}
