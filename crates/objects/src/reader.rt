// Objects from text into cells. A sequence's places are a loop, so calls nest only as deep as marks do. Cells are counted
// on past the end of the table, and written only where it has room.
ghost use Rattle.std.specs.Prelude.{◌+◌, ◌-◌, ◌≤◌, length};
ghost use Rattle.objects.specs.Readings.{AtomReading, ObjectReading, PlaceReading, PlacesReading, WholeReading};

use super::{ObjectRead, PlaceRead};
use language::{Refusal, RefusedText};

// The word or number at p.
fn read_atom(s: &[u8], p: usize, used: u32) -> Result<ObjectRead, RefusedText>
    ensures { AtomReading s.now p used result }
{
    let n = lexer::size_at(s, p);
    if n == 0 {
        return Err(RefusedText {
            refusal: Refusal::NotInGrammar,
            place: p,
        });
    }
    match lexer::judge_atom(&s[p..p + n]) {
        Ok(value) => Ok(ObjectRead {
            value,
            next: p + n,
            cells: used,
        }),
        Err(refusal) => Err(RefusedText { refusal, place: p }),
    }
}

// The object at or behind `at`, where `room` more marks may open, in cells from `used` on.
#[cycle(object_reading)]
pub fn read_object(
    s: &[u8],
    at: usize,
    room: u32,
    c: &mut [u32],
    used: u32,
) -> Result<ObjectRead, RefusedText>
    requires { used + (length s.now - at) ≤ 4294967294 }
    ensures { ObjectReading s.now at room c.old used result c.new }
{
    let p = lexer::skip_blanks(s, at);
    let b = lexer::byte_at(s, p);
    if b != b'<' {
        return read_atom(s, p, used);
    }
    if room == 0 {
        return Err(RefusedText {
            refusal: Refusal::OpenMarks,
            place: p,
        });
    }
    let q = lexer::skip_blanks(s, p + 1);
    let d = lexer::byte_at(s, q);
    if d == b'>' {
        return Ok(ObjectRead {
            value: cells::sequence(0, 0),
            next: q + 1,
            cells: used,
        });
    }
    read_places(s, p + 1, room - 1, c, used)
}

// The places of a sequence from `from` on, up to the `>`: at least one.
#[cycle(object_reading)]
fn read_places(
    s: &[u8],
    from: usize,
    room: u32,
    c: &mut [u32],
    used: u32,
) -> Result<ObjectRead, RefusedText>
    requires { (from ≤ length s.now) × (used + 1 + (length s.now - from) ≤ 4294967294) }
    ensures { PlacesReading s.now from room c.old used result c.new }
{
    let mut at = from;
    let mut cell = used;
    let mut n: u32 = 0;
    loop {
        match read_place(s, at, room, c, cell)? {
            PlaceRead::Last(next, end) => return Ok(ObjectRead {
                value: cells::sequence(used + 1, n + 1),
                next,
                cells: end,
            }),
            PlaceRead::More(next, end) => {
                at = next;
                cell = end;
                n += 1;
            }
        }
    }
}

// One place of a sequence, its cell at `cell`, with the comma or the `>` behind it.
#[cycle(object_reading)]
fn read_place(
    s: &[u8],
    at: usize,
    room: u32,
    c: &mut [u32],
    cell: u32,
) -> Result<PlaceRead, RefusedText>
    requires { (at ≤ length s.now) × (cell + 1 + (length s.now - at) ≤ 4294967294) }
    ensures { PlaceReading s.now at room c.old cell result c.new }
{
    let x = read_object(s, at, room, c, cell + 1)?;
    let p = lexer::skip_blanks(s, x.next);
    let b = lexer::byte_at(s, p);
    if b == b'>' {
        cells::put_cell(c, cell, x.value, 0);
        return Ok(PlaceRead::Last(p + 1, x.cells));
    }
    if b != b',' {
        let refusal = lexer::refusal(s, p);
        return Err(RefusedText { refusal, place: p });
    }
    cells::put_cell(c, cell, x.value, x.cells + 1);
    Ok(PlaceRead::More(p + 1, x.cells))
}

// A text that is one object, in cells from `used` on.
pub fn read_whole_object(s: &[u8], c: &mut [u32], used: u32) -> Result<ObjectRead, RefusedText>
    requires { used + length s.now ≤ 4294967294 }
    ensures { WholeReading s.now c.old used result c.new }
{
    let x = read_object(s, 0, language::MARK_LIMIT, c, used)?;
    let next = lexer::skip_blanks(s, x.next);
    if next != s.len() {
        let refusal = lexer::refusal(s, next);
        return Err(RefusedText {
            refusal,
            place: next,
        });
    }
    Ok(ObjectRead { next, ..x })
}
