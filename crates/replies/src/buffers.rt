// The buffers of a call and its reply.
ghost use Rattle.std.specs.Prelude.{◌≡◌, length};

// The bytes of the longest reply: six numbers of at most ten digits, each with a byte behind it, and a text of 16,384 bytes
// with its line feed.
pub const REPLY_SIZE: usize = 16451;

// N zeros. What stands in the buffers does not matter, so it promises their number only.
pub fn zeroed<T: Copy + Default, const N: usize>() -> [T; N]
    ensures { N ≡ length result }
{
    [T::default(); N]
}

// Room for the longest reply.
pub fn reply() -> [u8; REPLY_SIZE]
    ensures { 16451 ≡ length result }
{
    zeroed()
}
