// The digits of numbers.
ghost use Rattle.std.specs.Prelude.{◌≡◌, length};
ghost use Rattle.objects.specs.Writings.{DigitsAt};

// Writes the digits of n to the end of `a`, the last one first, and gives the place of the first.
pub fn digits(n: u64, a: &mut [u8]) -> usize
    requires { length a.old ≡ 20 }
    ensures { DigitsAt n result a.new }
{
    let mut left = n;
    for i in (0..20).rev() {
        a[i] = (left % 10) as u8 + b'0';
        if left < 10 {
            return i;
        }
        left /= 10;
    }
    unreachable!()
}
