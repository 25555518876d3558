// A program that stands in the tables as it was read is linked, and its main is applied to a value.
#![tactic(auto)]

ghost use Rattle.std.specs.Prelude.{◌≡◌};
ghost use Rattle.language.specs.Bytes.{bytes};
ghost use Rattle.linker.specs.Roots.{root_in};
ghost use Rattle.program_runner.specs.Mains.{MainApplied};

use language::{Meter, Stopped, Val};
use primitives::Reached;

// The word main, packed: m, a, i and n, base 37, the first letter lowest.
const MAIN: u32 = 13 + 37 * (1 + 37 * (9 + 37 * 14));

// The record of main's body, and one; 0 if main is undefined.
fn main_root(definitions: &[u32], many: u32) -> u32
    ensures { result ≡ root_in definitions.now many (bytes "main") }
{
    linker::root_of(definitions, many, MAIN, 0)
}

// Links the first `total` records of `forms`, names by the first `many` definitions, and applies main to v.
pub fn apply_main(
    forms: &mut [u32],
    total: u32,
    definitions: &[u32],
    many: u32,
    c: &mut [u32],
    v: Val,
    m: Meter,
) -> Result<Reached, Stopped>
    ensures { MainApplied forms.old total definitions.now many c.old v m result c.new }
{
    linker::link(forms, total, definitions, many);
    let root = main_root(definitions, many);
    evaluator::run::evaluate(forms, c, root, v, m)
}
