// The cases of a file, one after the other.
ghost use Rattle.std.specs.Prelude.{◌≤◌, IfOk};
ghost use Rattle.reread.specs.Rereading.{Inside};

use super::{Kind, NotReread, lines, rereading};
use std::fs::File;
use std::io;

// The most bytes of a case's text.
const TEXT_LIMIT: usize = 65536;

// The cases of a file are counted from 1 to below this.
const CASE_LIMIT: u64 = 4294967296;

// The number in the next four bytes of the file; nothing if it has no four any more.
fn read_number(file: &mut File) -> io::Result<Option<u32>> {
    Ok(streams::read_array(file)?.map(u32::from_le_bytes))
}

// How much of the output may be written: all of it, or what the case says. After an error some of the file has been read.
fn read_room(file: &mut File, short: bool) -> io::Result<usize>
    ensures { IfOk result (λ n. n ≤ 16384) }
{
    if !short {
        return Ok(language::WRITTEN_LIMIT);
    }
    let room = read_number(file)?;
    Ok(room.map_or(language::WRITTEN_LIMIT, |n| {
        (n as usize).min(language::WRITTEN_LIMIT)
    }))
}

// Rereads a text of this kind. The object reader counts cells on past a full table: a text of 16,384 bytes needs 8,191 cells
// at most, so that 8,192 hold every object that is read.
fn reread_text(kind: Kind, text: &[u8], out: &mut [u8]) -> Result<usize, NotReread>
    ensures { Inside result out.new }
{
    let mut cells: [u32; rereading::CELLS_SIZE] = streams::filled(0);
    match kind {
        Kind::Object => rereading::reread_object(text, &mut cells, out),
        Kind::Program | Kind::Other => {
            let mut forms: [u32; language::FORM_TABLE_SIZE] = streams::filled(0);
            let mut definitions: [u32; formtable::DEFINITION_TABLE_SIZE] = streams::filled(0);
            rereading::reread_program(text, &mut forms, &mut cells, &mut definitions, out)
        }
    }
}

// Reads the next case and prints its line; false at the end of the file, and for a text that is cut short or over 65,536
// bytes.
fn reread_next(rt: &HostRuntime, file: &mut File, short: bool, count: u64) -> io::Result<bool> {
    let Some(kind) = read_number(file)? else {
        return Ok(false);
    };
    let Some(size) = read_number(file)? else {
        return Ok(false);
    };
    let size = size as usize;
    let room = read_room(file, short)?;
    if TEXT_LIMIT < size {
        return Ok(false);
    }
    let mut buf: [u8; TEXT_LIMIT] = streams::filled(0);
    let Some(text) = streams::read_exactly(file, &mut buf, size)? else {
        return Ok(false);
    };
    let mut out: [u8; language::WRITTEN_LIMIT] = streams::filled(0);
    let out = &mut out[..room];
    let r = reread_text(Kind::from(kind), text, out);
    lines::print_line(rt, Kind::from(kind), count, r, out)?;
    Ok(true)
}

// Every case, counted from 1.
pub fn reread_all(rt: &HostRuntime, file: &mut File, short: bool) -> io::Result<()> {
    for count in 1..CASE_LIMIT {
        if !reread_next(rt, file, short, count)? {
            break;
        }
    }
    Ok(())
}
