// The numbers that digits write.
ghost use Rattle.std.specs.Prelude.{◌≡◌, ◌-◌, ◌<◌, min};
ghost use Rattle.language.specs.Judging.{value_of};

// What a byte adds: a digit its value.
fn digit(b: u8) -> u64
    ensures { (result ≡ b - 48) × (result < 256) }
{
    u64::from(b.saturating_sub(b'0'))
}

// The value given for all that no integer has the size of.
const PAST: u64 = 2147483649;

// The value of digits, or 2,147,483,649 if it is that or more.
pub fn value(digits: &[u8]) -> u64
    ensures { result ≡ min (value_of digits.now) 2147483649 }
{
    let mut v: u64 = 0;
    for b in digits {
        v = v * 10 + digit(*b);
        if language::HALF < v {
            return PAST;
        }
    }
    v
}
