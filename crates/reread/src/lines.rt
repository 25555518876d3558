// The line that is printed of a case.
ghost use Rattle.reread.specs.Rereading.{Inside};

use super::{Kind, NotReread};
use std::io;

// Prints the case's kind and number, and what was written back at the front of `out`, or why nothing was.
pub fn print_line(
    rt: &HostRuntime,
    kind: Kind,
    count: u64,
    r: Result<usize, NotReread>,
    out: &[u8],
) -> io::Result<()>
    requires { Inside r out.now }
{
    print!(rt; "{kind} {count}: ")?;
    match r {
        Ok(n) => rt.write_all(&out[..n])?,
        Err(e) => print!(rt; "{e}")?,
    }
    println!(rt; "")
}
