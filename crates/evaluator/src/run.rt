// A whole run.
ghost use Rattle.std.specs.Prelude.{◌≡◌, length, replicate};
ghost use Rattle.language.specs.Numbers.{cell_limit, form_table_size, cell_table_size};
ghost use Rattle.evaluator.specs.Applying.{Ran, FormsCopied};

use crate::cycle::name;
use crate::waiting::RING_SIZE;
use language::{FORM_TABLE_SIZE, Meter, Stopped, Val};
use primitives::Reached;

// Applies main to v. The record of main's body, and one, is root; 0 if main is undefined.
pub fn evaluate(
    forms: &[u32],
    c: &mut [u32],
    root: u32,
    v: Val,
    m: Meter,
) -> Result<Reached, Stopped>
    ensures { Ran forms.now c.old root v m result c.new }
{
    let k = m.charge_step()?;
    let f = copied(forms);
    let mut w = ring();
    name(&f, c, &mut w, 0, root, v, k)
}

// The first 8,192 numbers of the forms; past their end 0.
fn copied(forms: &[u32]) -> [u32; FORM_TABLE_SIZE]
    ensures { FormsCopied forms.now result }
{
    let mut f = empty();
    let n = forms.len().min(FORM_TABLE_SIZE);
    f[..n].copy_from_slice(&forms[..n]);
    f
}

// A table of 8,192 numbers, all 0.
fn empty() -> [u32; FORM_TABLE_SIZE]
    ensures { result ≡ replicate form_table_size 0 }
{
    [0; FORM_TABLE_SIZE]
}

// A ring of 4,096 places.
fn ring() -> [u32; RING_SIZE]
    ensures { length result ≡ cell_table_size cell_limit }
{
    [0; RING_SIZE]
}
