// What the programs read: a stream's bytes in a lent buffer.
#![tactic(auto)]

ghost use Rattle.std.specs.Prelude.{◌≡◌, ◌≤◌, length, IfOk, IfSome};

use std::io::{self, Read};

// Reads until buf is full or the input ends, and gives how many bytes it put at the start of buf. After an error some of buf
// may be written.
pub fn read_full<R: Read>(input: &mut R, buf: &mut [u8]) -> io::Result<usize>
    ensures { IfOk result (λ n. n ≤ length buf.new) }
{
    let mut done = 0;
    while done < buf.len() {
        let n = input.read(&mut buf[done..])?;
        if n == 0 {
            break;
        }
        done += n;
    }
    Ok(done)
}

// Reads the next n bytes to the start of buf, and gives them; nothing if the input ends before that.
pub fn read_exactly<'a, R: Read>(
    input: &mut R,
    buf: &'a mut [u8],
    n: usize,
) -> io::Result<Option<&'a [u8]>>
    requires { n ≤ length buf.old }
    ensures { IfOk result (λ read. IfSome read (λ text. length text.now ≡ n)) }
{
    let text = &mut buf[..n];
    if read_full(input, text)? < n {
        return Ok(None);
    }
    Ok(Some(text))
}

// Reads the next N bytes; nothing if the input ends before that.
pub fn read_array<R: Read, const N: usize>(input: &mut R) -> io::Result<Option<[u8; N]>>
    ensures { IfOk result (λ read. IfSome read (λ bytes. length bytes ≡ N)) }
{
    let mut bytes = [0; N];
    if read_full(input, &mut bytes)? < N {
        return Ok(None);
    }
    Ok(Some(bytes))
}

// An array with this value in every place. The `ensures` gives only the length: goals that name the array stay short.
pub fn filled<T: Copy, const N: usize>(value: T) -> [T; N]
    ensures { length result ≡ N }
{
    [value; N]
}
