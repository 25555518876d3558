// What is printed of an input.
use std::io;

pub fn print_reply(rt: &HostRuntime, input: &[u8]) -> io::Result<()> {
    let mut out = replies::reply();
    let r = replies::answer_input(input, &mut out);
    rt.write_all(&out[..r])
}
