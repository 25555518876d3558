// Bodies of a name that hold 32 marks, and the name itself within all of them.
ghost use Rattle.std.specs.Prelude.{◌≡◌, ◌<◌};

use formtable::Kind;
use language::FORM_TABLE_SIZE;
use lexer::Primitive;

// What stands at each mark: a form of this kind, which holds this word `before` times, and then what stands deeper.
#[derive(Clone, Copy, Debug, PartialEq, Eq)]
pub struct Level {
    pub kind: Kind,
    pub before: u32,
    pub word: Primitive,
    ghost before_bound: { before < 3 },
}

impl Level {
    pub fn new(kind: Kind, before: u32, word: Primitive) -> Level
        requires before_bound { before < 3 }
        ensures { (result.kind ≡ kind) × (result.before ≡ before) × (result.word ≡ word) }
    {
        Level { kind, before, word }
    }
}

// Writes a record with these first three numbers.
fn put(f: &mut [u32; FORM_TABLE_SIZE], i: u32, first: u32, arity: u32, low: u32) {
    tables::put_record(f, i as usize, first, arity, low, 0);
}

// The first number of a linked record: its kind, and the record that is applied next.
fn linked(kind: Kind, next: u32) -> u32
    requires next_bound { next < 256 }
{
    u32::from(kind) + linker::KINDS * next
}

// Writes a chain of id and the level's form at b. Behind the form's words comes what stands at b + 5.
fn put_level(f: &mut [u32; FORM_TABLE_SIZE], level: Level, b: u32)
    requires b_bound { b < 160 }
{
    let x = b + 4 - level.before;
    put(f, b, Kind::Chain as u32, 2, x);
    put(f, b + 1, Kind::Word as u32, 0, u32::from(Primitive::Id));
    put(
        f,
        b + 3,
        linked(Kind::Word, b + 4),
        0,
        u32::from(level.word),
    );
    put(
        f,
        b + 4,
        linked(Kind::Word, b + 5),
        0,
        u32::from(level.word),
    );
    put(f, x, linked(level.kind, b + 1), 1, 0);
}

// 32 levels, and at the end a chain of id and the name.
pub fn body(level: Level) -> [u32; FORM_TABLE_SIZE] {
    let mut f = [0; FORM_TABLE_SIZE];
    for depth in 0..32 {
        put_level(&mut f, level, 5 * depth);
    }
    put(&mut f, 160, Kind::Chain as u32, 2, 162);
    put(&mut f, 161, Kind::Word as u32, 0, u32::from(Primitive::Id));
    put(&mut f, 162, linked(Kind::Name, 161), 1, 0);
    f
}

// 32 constructions; the innermost holds eq, and then a chain of id and the name.
pub fn equality_body() -> [u32; FORM_TABLE_SIZE] {
    let mut f = body(Level::new(Kind::Construct, 0, Primitive::Id));
    put(&mut f, 159, linked(Kind::Construct, 156), 2, 0);
    put(
        &mut f,
        160,
        linked(Kind::Word, 161),
        0,
        u32::from(Primitive::Eq),
    );
    put(&mut f, 161, Kind::Chain as u32, 2, 163);
    put(&mut f, 162, Kind::Word as u32, 0, u32::from(Primitive::Id));
    put(&mut f, 163, linked(Kind::Name, 162), 1, 0);
    f
}
