// Forms and parts of the text s, which hold each other: each is read from the place on that `from` says, its records to the
// form table t and its constants to the cells c, behind those that `from` counts. A form's record stands before those of
// its parts. `room` more marks may open. Readers call each other only where marks nest; parts and forms in a row are loops.
ghost use Rattle.std.specs.Prelude.{◌+◌, ◌≤◌};
ghost use Rattle.formtable.specs.Kinds.{number_of_kind};
ghost use Rattle.forms.specs.Readers.{form_at, parts_at, part_at, forms_at, prefix_at, construct_at, bu_at, round_at, closed_at, chain_at, while_at, branches_at, condition_at};
ghost use Rattle.forms.specs.Readings.{Ready, FormMet, FormsMet, BranchesMet, Continued};

use super::{CommaRead, FormsRead, TestRead, Upto, marks, plain};
use formtable::Kind;
use language::{Refusal, RefusedText};

// One part, or several joined by dots.
#[cycle(form_reading)]
pub fn read_form(
    s: &[u8],
    from: Upto,
    room: u32,
    t: &mut [u32],
    c: &mut [u32],
) -> Result<Upto, RefusedText>
    requires { Ready s.now from.next from.forms from.cells }
    ensures { FormMet from.forms from.cells t.old c.old result t.new c.new (form_at s.now from.next room) }
{
    let x = read_part(s, from, room, t, c)?;
    match marks::read_dot(s, x.next) {
        None => Ok(x),
        Some(next) => read_chain(s, Upto { next, ..x }, room, t, from.forms, c),
    }
}

// Behind the first dot: the first part's records, from n on, move up for the chain's record.
#[cycle(form_reading)]
fn read_chain(
    s: &[u8],
    from: Upto,
    room: u32,
    t: &mut [u32],
    n: usize,
    c: &mut [u32],
) -> Result<Upto, RefusedText>
    requires { Ready s.now from.next (from.forms + 1) from.cells }
    ensures { Continued (chain_at s.now from.next room) n from.forms from.cells t.old c.old result t.new c.new }
{
    tables::shift_up(t, n, from.forms);
    let behind = Upto {
        forms: from.forms + 1,
        ..from
    };
    let later = read_parts(s, behind, room, t, c)?;
    tables::put_record(t, n, Kind::Chain as u32, later.count + 1, 0, 0);
    Ok(later.upto)
}

// Parts joined by dots.
#[cycle(form_reading)]
fn read_parts(
    s: &[u8],
    from: Upto,
    room: u32,
    t: &mut [u32],
    c: &mut [u32],
) -> Result<FormsRead, RefusedText>
    requires { Ready s.now from.next from.forms from.cells }
    ensures { FormsMet from.forms from.cells t.old c.old result t.new c.new (parts_at s.now from.next room) }
{
    let mut upto = from;
    let mut count: u32 = 0;
    loop {
        upto = read_part(s, upto, room, t, c)?;
        count += 1;
        match marks::read_dot(s, upto.next) {
            None => return Ok(FormsRead { upto, count }),
            Some(next) => upto.next = next,
        }
    }
}

// A word, a name, or what begins with a mark that opens.
#[cycle(form_reading)]
fn read_part(
    s: &[u8],
    from: Upto,
    room: u32,
    t: &mut [u32],
    c: &mut [u32],
) -> Result<Upto, RefusedText>
    requires { Ready s.now from.next from.forms from.cells }
    ensures { FormMet from.forms from.cells t.old c.old result t.new c.new (part_at s.now from.next room) }
{
    let p = lexer::skip_blanks(s, from.next);
    let b = lexer::byte_at(s, p);
    if !marks::is_opening(b) {
        return plain::read_plain(s, Upto { next: p, ..from }, t);
    }
    if room == 0 {
        return Err(RefusedText {
            refusal: Refusal::OpenMarks,
            place: p,
        });
    }
    let behind = Upto {
        next: p + 1,
        ..from
    };
    match b {
        b'[' => read_construct(s, behind, room - 1, t, c),
        b'%' => plain::read_constant(s, behind, room - 1, t, c),
        b'/' => read_prefix(Kind::Insert, s, behind, room - 1, t, c),
        b'@' => read_prefix(Kind::ApplyAll, s, behind, room - 1, t, c),
        b'{' => read_bu(s, behind, room - 1, t, c),
        _ => read_round(s, behind, room - 1, t, c),
    }
}

// Behind a `[`: forms, and the `]`.
#[cycle(form_reading)]
fn read_construct(
    s: &[u8],
    from: Upto,
    room: u32,
    t: &mut [u32],
    c: &mut [u32],
) -> Result<Upto, RefusedText>
    requires { Ready s.now from.next (from.forms + 1) from.cells }
    ensures { FormMet from.forms from.cells t.old c.old result t.new c.new (construct_at s.now from.next room) }
{
    let behind = Upto {
        forms: from.forms + 1,
        ..from
    };
    let inner = read_forms(s, behind, room, t, c)?;
    tables::put_record(t, from.forms, Kind::Construct as u32, inner.count, 0, 0);
    Ok(inner.upto)
}

// Forms with commas between, and the `]`.
#[cycle(form_reading)]
fn read_forms(
    s: &[u8],
    from: Upto,
    room: u32,
    t: &mut [u32],
    c: &mut [u32],
) -> Result<FormsRead, RefusedText>
    requires { Ready s.now from.next from.forms from.cells }
    ensures { FormsMet from.forms from.cells t.old c.old result t.new c.new (forms_at s.now from.next room) }
{
    let mut upto = from;
    let mut count: u32 = 0;
    loop {
        upto = read_form(s, upto, room, t, c)?;
        count += 1;
        match marks::read_comma(s, upto.next)? {
            CommaRead::More(next) => upto.next = next,
            CommaRead::Closed(next) => return Ok(FormsRead {
                upto: Upto { next, ..upto },
                count,
            }),
        }
    }
}

// Behind a `/` or an `@`: a part.
#[cycle(form_reading)]
#[inline(always)]
fn read_prefix(
    kind: Kind,
    s: &[u8],
    from: Upto,
    room: u32,
    t: &mut [u32],
    c: &mut [u32],
) -> Result<Upto, RefusedText>
    requires { Ready s.now from.next (from.forms + 1) from.cells × (7 ≤ number_of_kind kind) × (number_of_kind kind ≤ 8) }
    ensures { FormMet from.forms from.cells t.old c.old result t.new c.new (prefix_at (number_of_kind kind) s.now from.next room) }
{
    let behind = Upto {
        forms: from.forms + 1,
        ..from
    };
    let x = read_part(s, behind, room, t, c)?;
    tables::put_record(t, from.forms, u32::from(kind), 1, 0, 0);
    Ok(x)
}

// Behind a `{`: a part, a comma, an object and the `}`.
#[cycle(form_reading)]
fn read_bu(
    s: &[u8],
    from: Upto,
    room: u32,
    t: &mut [u32],
    c: &mut [u32],
) -> Result<Upto, RefusedText>
    requires { Ready s.now from.next (from.forms + 1) from.cells }
    ensures { FormMet from.forms from.cells t.old c.old result t.new c.new (bu_at s.now from.next room) }
{
    let behind = Upto {
        forms: from.forms + 1,
        ..from
    };
    let x = read_part(s, behind, room, t, c)?;
    let bound = plain::read_bound(s, x.next, room, c, x.cells)?;
    plain::put_word(
        t,
        from.forms,
        Kind::Bu as u32 + bound.value.tag,
        1,
        bound.value.word,
    );
    Ok(Upto {
        next: bound.next,
        forms: x.forms,
        cells: bound.cells,
    })
}

// Behind a `(`: a form and the `)`, or a condition or a loop that begins with it.
#[cycle(form_reading)]
fn read_round(
    s: &[u8],
    from: Upto,
    room: u32,
    t: &mut [u32],
    c: &mut [u32],
) -> Result<Upto, RefusedText>
    requires { Ready s.now from.next (from.forms + 1) from.cells }
    ensures { FormMet from.forms from.cells t.old c.old result t.new c.new (round_at s.now from.next room) }
{
    let x = read_form(s, from, room, t, c)?;
    match marks::read_test(s, x.next)? {
        TestRead::Closed(next) => Ok(Upto { next, ..x }),
        TestRead::While(next) => read_while(s, Upto { next, ..x }, room, t, from.forms, c),
        TestRead::Condition(next) => read_condition(s, Upto { next, ..x }, room, t, from.forms, c),
    }
}

// A form and the `)` behind it.
#[cycle(form_reading)]
#[inline(always)]
fn read_closed(
    s: &[u8],
    from: Upto,
    room: u32,
    t: &mut [u32],
    c: &mut [u32],
) -> Result<Upto, RefusedText>
    requires { Ready s.now from.next from.forms from.cells }
    ensures { FormMet from.forms from.cells t.old c.old result t.new c.new (closed_at s.now from.next room) }
{
    let x = read_form(s, from, room, t, c)?;
    let next = marks::read_mark(s, x.next, b')')?;
    Ok(Upto { next, ..x })
}

// Behind `(p?`: the loop's form and the `)`. The records of p, from n on, move up for the loop's record.
#[cycle(form_reading)]
fn read_while(
    s: &[u8],
    from: Upto,
    room: u32,
    t: &mut [u32],
    n: usize,
    c: &mut [u32],
) -> Result<Upto, RefusedText>
    requires { Ready s.now from.next (from.forms + 1) from.cells }
    ensures { Continued (while_at s.now from.next room) n from.forms from.cells t.old c.old result t.new c.new }
{
    tables::shift_up(t, n, from.forms);
    let behind = Upto {
        forms: from.forms + 1,
        ..from
    };
    let x = read_closed(s, behind, room, t, c)?;
    tables::put_record(t, n, Kind::While as u32, 2, 0, 0);
    Ok(x)
}

// Behind `(p->`: two forms. The records of p, from n on, move up for the condition's record.
#[cycle(form_reading)]
fn read_condition(
    s: &[u8],
    from: Upto,
    room: u32,
    t: &mut [u32],
    n: usize,
    c: &mut [u32],
) -> Result<Upto, RefusedText>
    requires { Ready s.now from.next (from.forms + 1) from.cells }
    ensures { Continued (condition_at s.now from.next room) n from.forms from.cells t.old c.old result t.new c.new }
{
    tables::shift_up(t, n, from.forms);
    let behind = Upto {
        forms: from.forms + 1,
        ..from
    };
    let x = read_branches(s, behind, room, t, c)?;
    tables::put_record(t, n, Kind::Condition as u32, 3, 0, 0);
    Ok(x)
}

// Two forms with a `;` between, and the `)`.
#[cycle(form_reading)]
fn read_branches(
    s: &[u8],
    from: Upto,
    room: u32,
    t: &mut [u32],
    c: &mut [u32],
) -> Result<Upto, RefusedText>
    requires { Ready s.now from.next from.forms from.cells }
    ensures { BranchesMet from.forms from.cells t.old c.old result t.new c.new (branches_at s.now from.next room) }
{
    let x = read_form(s, from, room, t, c)?;
    let next = marks::read_mark(s, x.next, b';')?;
    read_closed(s, Upto { next, ..x }, room, t, c)
}
