// The link pass: a raw form table is made ready for evaluation, in place and from the back. A raw record is
// [kind, arity, lo, hi]; a linked one has the record of the part to evaluate next, times 32, added to its kind.
#![tactic(auto)]

ghost use Rattle.std.specs.Prelude.{◌≡◌, ◌+◌, ◌*◌, ◌/◌, ◌%◌, ◌<◌, get_or};
ghost use Rattle.linker.specs.Roots.{link_set};
ghost use Rattle.linker.specs.Linking.{Walked, Reversed, OneLinked, AllLinked};

mod names;

use names::Names;
pub use names::root_of;

// A record's first number is its kind and this many times its link.
pub const KINDS: u32 = 32;

// Where the form at i leads to.
fn next(t: &[u32], i: u32) -> u32
    ensures { result ≡ get_or t.now (i * 4) 0 / 32 }
{
    tables::at(t, i as usize * 4) / KINDS
}

// Lets the form at i lead to `link`.
fn set_link(t: &mut [u32], i: u32, link: u32)
    ensures { t.new ≡ link_set t.old i link }
{
    let kind = tables::at(t, i as usize * 4) % KINDS;
    tables::store(t, i as usize * 4, kind + KINDS * (link % 134217728));
}

// The end of n forms that lead from one to the next, from the one at start on.
fn walk(t: &[u32], start: u32, n: u32) -> u32
    ensures { Walked t.now start n result }
{
    let mut j = start;
    for _ in 0..n {
        j = next(t, j);
    }
    j
}

// The last of n forms, and their end.
#[derive(Clone, Copy, Debug, PartialEq, Eq)]
struct Turned {
    last: u32,
    rest: u32,
}

// Turns the links of n forms round: each leads to the one before it, the first to 0.
fn reverse(t: &mut [u32], start: u32, n: u32) -> Turned
    ensures { Reversed t.old start n result t.new }
{
    let mut j = start;
    let mut before: u32 = 0;
    for _ in 0..n {
        let behind = next(t, j);
        set_link(t, j, before);
        before = j;
        j = behind;
    }
    Turned {
        last: before,
        rest: j,
    }
}

// Links the form at i, whose parts and all that follows them are linked: it leads to what follows its parts.
fn link_one(t: &mut [u32], i: u32, names: &Names)
    requires { i < 4294967295 }
    ensures { OneLinked t.old i names.now.definitions.now names.now.count t.new }
{
    let k = i as usize * 4;
    let arity = tables::at(t, k + 1);
    match tables::at(t, k) % KINDS {
        formtable::CHAIN => {
            let r = reverse(t, i + 1, arity);
            tables::store(t, k + 2, r.last);
            set_link(t, i, r.rest);
        }
        formtable::NAME => {
            let root = names.root(tables::at(t, k + 2), tables::at(t, k + 3));
            tables::store(t, k + 1, root);
            set_link(t, i, i + 1);
        }
        _ => {
            let rest = walk(t, i + 1, arity);
            set_link(t, i, rest);
        }
    }
}

// Links the first `total` records, from the last to the first; names by the first `count` definitions.
pub fn link(t: &mut [u32], total: u32, definitions: &[u32], count: u32)
    ensures { AllLinked t.old total definitions.now count t.new }
{
    let names = Names::new(definitions, count);
    for i in (0..total).rev() {
        link_one(t, i, &names);
    }
}
