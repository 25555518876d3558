// Reads each text of the file `texts.cases` and writes it back: one line for each, with what was written or the refusal.
// A case is two numbers of four bytes, the lowest first (1 for a program or 2 for an object; the length), and the text. In
// `short.cases` a third number says how many bytes may be written.
#![tactic(auto)]

ghost use Rattle.std.specs.Prelude.{◌≡◌, ◌↔◌};
ghost use Rattle.reread.specs.declared.Kind.TheVariants.{Program, Object};

mod cases;
mod lines;
mod rereading;

use language::RefusedText;
use std::{fmt, fs, io};

// What a text is read as. A number that is neither a program's nor an object's is read as a program, and called an object.
#[derive(Clone, Copy, Debug, PartialEq, Eq)]
pub enum Kind {
    Program,
    Object,
    Other,
}

impl From<u32> for Kind {
    ghost from_gives = { λ n kind. ((kind ≡ Program) ↔ (n ≡ 1)) × ((kind ≡ Object) ↔ (n ≡ 2)) };

    fn from(number: u32) -> Kind {
        match number {
            1 => Kind::Program,
            2 => Kind::Object,
            _ => Kind::Other,
        }
    }
}

impl fmt::Display for Kind {
    fn fmt<W: fmt::Write>(&self, f: &mut fmt::Formatter<W>) -> fmt::Result {
        f.write_str(match self {
            Kind::Program => "program",
            Kind::Object | Kind::Other => "object",
        })
    }
}

// Why a text was not written back: it was refused; or what was read has no room in the output, or too many marks.
#[derive(Clone, Copy, Debug, PartialEq, Eq)]
pub enum NotReread {
    Refused(RefusedText),
    Unwritten,
}

impl From<RefusedText> for NotReread {
    fn from(e: RefusedText) -> NotReread {
        NotReread::Refused(e)
    }
}

impl fmt::Display for NotReread {
    fn fmt<W: fmt::Write>(&self, f: &mut fmt::Formatter<W>) -> fmt::Result {
        match self {
            NotReread::Refused(e) => write!(f, "refused {} at {}", u32::from(e.refusal), e.place),
            NotReread::Unwritten => f.write_str("no room"),
        }
    }
}

fn reread_file(rt: &HostRuntime, path: &str, short: bool) -> io::Result<()> {
    let mut file = fs::open(rt, path)?;
    cases::reread_all(rt, &mut file, short)
}

fn main(rt: HostRuntime) -> io::Result<()> {
    reread_file(&rt, "texts.cases", false)?;
    reread_file(&rt, "short.cases", true)
}
