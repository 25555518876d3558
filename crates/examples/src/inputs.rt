// Inputs as tests/fprun_inputs.py writes them: the length of a name and that of the input, 16 bits each with the low byte
// first, then the name and the input.
use crate::printing;
use std::fs::File;
use std::io;

// The most inputs that are printed.
const INPUT_LIMIT: u64 = 1000000;

// Prints the next name and reply; false at the end of the file, and for a text that is cut short.
fn print_next(rt: &HostRuntime, file: &mut File) -> io::Result<bool> {
    let Some(head) = streams::read_array::<_, 4>(file)? else {
        return Ok(false);
    };
    let [n0, n1, i0, i1] = head;
    let mut room: [u8; 65536] = streams::filled(0);
    let length = usize::from(u16::from_le_bytes([n0, n1]));
    let Some(name) = streams::read_exactly(file, &mut room, length)? else {
        return Ok(false);
    };
    rt.write_all(name)?;
    rt.write_all(b"\n")?;
    let length = usize::from(u16::from_le_bytes([i0, i1]));
    let Some(input) = streams::read_exactly(file, &mut room, length)? else {
        return Ok(false);
    };
    printing::print_reply(rt, input)?;
    Ok(true)
}

// Every input of the file, as far as the limit goes.
pub fn print_all(rt: &HostRuntime, file: &mut File) -> io::Result<()> {
    for _ in 0..INPUT_LIMIT {
        if !print_next(rt, file)? {
            break;
        }
    }
    Ok(())
}
