// Places copied into cells that follow one another.
ghost use Rattle.std.specs.Prelude.{◌≡◌};
ghost use Rattle.cells.specs.Cells.{cell_put};
ghost use Rattle.sequences.specs.Lines.{link_over, CopiedLine};

use language::Val;

// What leads to the cell d further on than p; 0 where d is 0.
fn link_over(p: u32, d: u32) -> u32
    ensures { result ≡ link_over p d }
{
    if d == 0 {
        return 0;
    }
    p.wrapping_add(d).wrapping_add(1)
}

// Makes cell p: the value v, and then the place in the cell d further on, or none where d is 0.
fn put_over(c: &mut [u32], p: u32, v: Val, d: u32)
    ensures { c.new ≡ cell_put c.old p v (link_over p d) }
{
    cells::put_cell(c, p, v, link_over(p, d));
}

// The first n places of v in the cells from p on, each leading to the cell d further on. Answers what follows them in v.
pub fn copied(c: &mut [u32], v: Val, n: u32, p: u32, d: u32) -> Val
    ensures { CopiedLine c.old v n p d result c.new }
{
    if p.checked_add(n).is_none() {
        return v;
    }
    let mut ahead = v;
    for q in 0..n {
        let x = cells::head(c, ahead);
        ahead = cells::tail(c, ahead);
        put_over(c, p + q, x, d);
    }
    ahead
}
