// Integers as values hold them: tag 0 and n for n, tag 1 and n for -(n + 1).
#![tactic(auto)]

ghost use Rattle.std.specs.Prelude.{◌≡◌, ◌+◌, ◌<◌, ◌≤◌, pos, neg_ℤ, ◌+ℤ◌, ◌-ℤ◌, ◌*ℤ◌};
ghost use Rattle.std.proofs.Math.IntN.{sub_ℕ};
ghost use Rattle.std.specs.Int.Signed.{quot_z};
ghost use Rattle.arithmetic.specs.Integers.{HoldsInteger, SmallInteger, Short, Computes, Negated, Less};

use language::{NEGATIVE, POSITIVE, Val};

// The integer n.
pub fn positive(n: u64) -> Val
    ensures { HoldsInteger result (pos n) }
{
    Val {
        tag: POSITIVE,
        word: n,
    }
}

// The integer -n.
fn negative(n: u64) -> Val
    ensures { HoldsInteger result (neg_ℤ (pos n)) }
{
    if n == 0 {
        return Val {
            tag: POSITIVE,
            word: 0,
        };
    }
    Val {
        tag: NEGATIVE,
        word: n - 1,
    }
}

// The integer x - y.
fn difference(x: u64, y: u64) -> Val
    ensures { HoldsInteger result (sub_ℕ x y) }
{
    if x < y {
        return Val {
            tag: NEGATIVE,
            word: y - x - 1,
        };
    }
    Val {
        tag: POSITIVE,
        word: x - y,
    }
}

// The integer without its sign.
fn magnitude(v: Val) -> u64
    requires { SmallInteger v }
    ensures { (result ≡ v.word + v.tag) × (result ≤ 2147483649) }
{
    v.word + u64::from(v.tag)
}

// The integer with the other sign.
fn negated(v: Val) -> Val
    requires { Short v }
    ensures { Negated v result }
{
    if v.tag == NEGATIVE {
        return positive(v.word + 1);
    }
    negative(v.word)
}

pub fn add(a: Val, b: Val) -> Val
    requires { SmallInteger a × SmallInteger b }
    ensures { Computes ◌+ℤ◌ a b result }
{
    let x = a.word;
    let y = b.word;
    if a.tag == b.tag {
        return Val {
            tag: a.tag,
            word: x + y + u64::from(a.tag),
        };
    }
    if a.tag == POSITIVE {
        return difference(x, y + 1);
    }
    difference(y, x + 1)
}

pub fn subtract(a: Val, b: Val) -> Val
    requires { Short a × Short b }
    ensures { Computes ◌-ℤ◌ a b result }
{
    add(a, negated(b))
}

pub fn multiply(a: Val, b: Val) -> Val
    requires { SmallInteger a × SmallInteger b }
    ensures { Computes ◌*ℤ◌ a b result }
{
    let n = magnitude(a) * magnitude(b);
    if a.tag == b.tag {
        return positive(n);
    }
    negative(n)
}

// The quotient, cut toward zero.
pub fn divide(a: Val, b: Val) -> Val
    requires { SmallInteger a × SmallInteger b × (0 < b.word + b.tag) }
    ensures { Computes quot_z a b result }
{
    let n = magnitude(a) / magnitude(b);
    if a.tag == b.tag {
        return positive(n);
    }
    negative(n)
}

// Whether a is less than b.
pub fn is_less(a: Val, b: Val) -> bool
    ensures { Less a b result }
{
    if a.tag == b.tag {
        if a.tag == POSITIVE {
            return a.word < b.word;
        }
        return b.word < a.word;
    }
    a.tag == NEGATIVE
}
