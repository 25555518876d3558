// The answer of a run from how the application of `main` ended: 20 to 26.
ghost use Rattle.nattglod.specs.Stages.{WrittenAnswered, EndMet};

use super::answers;
use language::{Answer, Meter, Stopped, Val};
use primitives::Reached;

// The object that v stands for, written to the output: 20, 25 or 26.
fn answer_written(c: &[u32], v: Val, steps: u32, cells: u32, output: &mut [u8]) -> Answer
    ensures { WrittenAnswered c.now v steps cells output.old result output.new }
{
    match objects::write_object(c, v, output) {
        Ok(length) => answers::counting(language::DONE, steps, cells, length as u32),
        Err(why) => answers::counting(u32::from(why), steps, cells, 0),
    }
}

// A value is written; what stopped carries its number.
pub fn answer_end(b: Meter, c: &[u32], ended: Result<Reached, Stopped>, output: &mut [u8]) -> Answer
    ensures { EndMet b c.now ended output.old result output.new }
{
    let steps = b.steps;
    let cells = b.cells;
    match ended {
        Err(end) => answers::counting(
            u32::from(end.why),
            answers::used(steps, end.meter.steps),
            answers::used(cells, end.meter.cells),
            0,
        ),
        Ok(end) => answer_written(
            c,
            end.value,
            answers::used(steps, end.meter.steps),
            answers::used(cells, end.meter.cells),
            output,
        ),
    }
}
