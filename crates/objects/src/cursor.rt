// Where a walk over a text stands.
ghost use Rattle.std.specs.Prelude.{◌≤◌};

// An output, the place that a walk has come to, and the place that it may go up to.
#[derive(Drop)]
pub struct Writer<'a> {
    pub out: &'a mut [u8],
    pub at: usize,
    pub cap: usize,
    ghost within: { at ≤ cap },
}
