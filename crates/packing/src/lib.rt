// Words of up to 12 letters and digits as numbers of 64 bits, and back.
#![tactic(auto)]

ghost use Rattle.std.specs.Prelude.{◌≡◌, ◌+◌, ◌≤◌, ◌<◌, length};
ghost use Rattle.packing.specs.Packing.{letter_of, packed, byte_of, Unpacked};

// How a packed word is written.
#[derive(Clone, Copy, Debug, PartialEq, Eq)]
pub enum Case {
    Upper,
    Lower,
}

// A byte as a digit of a packed word.
fn letter(b: u8) -> u64
    ensures { (result ≡ letter_of b) × (result < 37) }
{
    u64::from(match b {
        ..=b'9' => b.saturating_sub(21) % 37,
        ..=b'Z' => b.saturating_sub(64) % 37,
        _ => b.saturating_sub(96) % 37,
    })
}

// A word of at most 12 bytes as one number.
pub fn pack(word: &[u8]) -> u64
    requires { length word.now ≤ 12 }
    ensures { result ≡ packed word.now }
{
    let mut v: u64 = 0;
    for b in word.iter().rev() {
        v = v * 37 + letter(*b);
    }
    v
}

// A digit of a packed word as a byte.
fn byte(case: Case, d: u8) -> u8
    requires { d < 37 }
    ensures { result ≡ byte_of case d }
{
    if 26 < d {
        return d + 21;
    }
    match case {
        Case::Upper => d + 64,
        Case::Lower => d + 96,
    }
}

// Writes a packed word's bytes to the front of `out` and gives their number.
pub fn unpack(v: u64, case: Case, out: &mut [u8]) -> usize
    requires { 12 ≤ length out.old }
    ensures { Unpacked case v result out.old out.new }
{
    let mut left = v;
    for i in 0..language::WORD_LIMIT {
        if left == 0 {
            return i;
        }
        out[i] = byte(case, (left % 37) as u8);
        left /= 37;
    }
    language::WORD_LIMIT
}
