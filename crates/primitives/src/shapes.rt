// What a value shows of its object: a pair, an integer, a truth value, an atom.
ghost use Rattle.std.specs.Prelude.{◌≡◌};
ghost use Rattle.primitives.specs.Shapes.{ReadPlaces, ReadTwo, is_integer_val, truth_val, ReadTruth, ReadAtom, ReadNull};

use language::{Meter, Stopped, Val};

// How many places a sequence has; bottom for an atom.
pub fn places(v: Val, m: Meter) -> Result<u32, Stopped>
    ensures { ReadPlaces v m result }
{
    if v.tag != language::SEQUENCE {
        return Err(Stopped::bottom(m));
    }
    Ok(cells::size(v))
}

// The two values of a pair.
pub fn two(c: &[u32], v: Val) -> Option<(Val, Val)>
    ensures { ReadTwo c.now v result }
{
    if v.tag != language::SEQUENCE || cells::size(v) != 2 {
        return None;
    }
    let rest = cells::tail(c, v);
    Some((cells::head(c, v), cells::head(c, rest)))
}

// Whether it is an integer.
pub fn is_integer(v: Val) -> bool
    ensures { result ≡ is_integer_val v }
{
    if language::SYMBOL <= v.tag {
        return false;
    }
    v.word < language::HALF
}

// The symbol T, packed.
const TRUE: u64 = 20;

// The symbol F, packed.
const FALSE: u64 = 6;

// The symbol T or F.
pub fn truth(b: bool) -> Val
    ensures { result ≡ truth_val b }
{
    if b {
        return Val {
            tag: language::SYMBOL,
            word: TRUE,
        };
    }
    Val {
        tag: language::SYMBOL,
        word: FALSE,
    }
}

// Whether it is the symbol T, where it is T or F.
pub fn truth_of(v: Val) -> Option<bool>
    ensures { ReadTruth v result }
{
    if v.tag != language::SYMBOL {
        return None;
    }
    match v.word {
        TRUE => Some(true),
        FALSE => Some(false),
        _ => None,
    }
}

// Whether it is an atom: no sequence, or the empty one.
pub fn is_atom(v: Val) -> bool
    ensures { ReadAtom v result }
{
    if v.tag != language::SEQUENCE {
        return true;
    }
    v.word == 0
}

// Whether it is the empty sequence.
pub fn is_null(v: Val) -> bool
    ensures { ReadNull v result }
{
    if v.tag != language::SEQUENCE {
        return false;
    }
    v.word == 0
}
