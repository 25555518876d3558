// Objects in texts: read into cells, and written from them.
#![tactic(auto)]

ghost use Rattle.std.specs.Prelude.{◌≡◌};
ghost use Rattle.objects.specs.Writings.{number_of};

mod cursor;
mod integers;
mod reader;
mod writer;

pub use integers::digits;
pub use reader::{read_object, read_whole_object};
pub use writer::{put_text, walk_object, write_object};

// What was read: the value, the place behind it and the number of the next free cell.
#[derive(Clone, Copy, Debug, PartialEq, Eq)]
pub struct ObjectRead {
    pub value: language::Val,
    pub next: usize,
    pub cells: u32,
}

// What was read of one place of a sequence, with the place behind it and the number of the next free cell: a comma
// follows it and so another place, or the `>`.
#[derive(Clone, Copy, Debug, PartialEq, Eq)]
pub enum PlaceRead {
    More(usize, u32),
    Last(usize, u32),
}

// Why an object isn't written, by the answer's number: no room for a byte, or a 33rd open mark, whichever comes first from
// the left.
#[derive(Clone, Copy, Debug, PartialEq, Eq)]
pub enum NotWritten {
    NoRoom = 25,
    TooDeep = 26,
}

impl From<NotWritten> for u32 {
    ghost from_gives = { λ why n. n ≡ number_of why };

    fn from(why: NotWritten) -> u32 {
        why as u32
    }
}
