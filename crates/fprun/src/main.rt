// Reads a call from standard input, three lines, and prints the reply.
#![tactic(auto)]

use std::io;

fn main(rt: HostRuntime) -> io::Result<()> {
    // One byte more than an input may have, so that a longer one shows.
    let mut input: [u8; 25001] = streams::filled(0);
    let n = streams::read_full(&mut rt.stdin(), &mut input)?;
    let mut out = replies::reply();
    let r = replies::answer_input(&input[..n], &mut out);
    rt.write_all(&out[..r])
}
