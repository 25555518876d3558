// Cases as tools/convert_vectors.py writes them: thirteen numbers of 32 bits, the lowest byte first, and three texts. In
// front of a wrong case stand three numbers more: the entry that it expects to be another.
ghost use Rattle.std.specs.Prelude.{◌≡◌, ◌<◌, ◌↔◌, Ok, false};
ghost use Rattle.vectors.specs.declared.cases.Table.TheVariants.{Output, Forms, Cells};

use language::Answer;

// What a run is lent, by the numbers that cases give.
#[derive(Clone, Copy, Debug, PartialEq, Eq)]
pub enum Table {
    Output = 1,
    Forms = 2,
    Cells = 3,
}

// A number that names no table.
#[derive(Clone, Copy, Debug, PartialEq, Eq)]
pub struct NoTable;

impl TryFrom<u32> for Table {
    type Error = NoTable;

    ghost try_from_gives = { λ n r. ((r ≡ Ok Output) ↔ (n ≡ 1)) × (((r ≡ Ok Forms) ↔ (n ≡ 2)) × ((r ≡ Ok Cells) ↔ (n ≡ 3))) };

    fn try_from(number: u32) -> Result<Table, NoTable> {
        match number {
            1 => Ok(Table::Output),
            2 => Ok(Table::Forms),
            3 => Ok(Table::Cells),
            _ => Err(NoTable),
        }
    }
}

// One entry that is expected to be this value, whatever is expected around it.
#[derive(Clone, Copy, Debug, PartialEq, Eq)]
pub struct Entry {
    pub table: Table,
    pub place: usize,
    pub value: u32,
}

// The lengths of the three texts, the budgets, the output's length, the answer, and the entry that is expected to be another.
#[derive(Clone, Copy, Debug, PartialEq, Eq)]
pub struct Case {
    pub program: u32,
    pub object: u32,
    pub text: u32,
    pub steps: u32,
    pub names: u32,
    pub cells: u32,
    pub room: u32,
    pub answer: Answer,
    pub entry: Option<Entry>,
}

impl Case {
    // Whether the case names an entry of this table.
    pub fn names(&self, table: Table) -> bool
        ensures { self.now.entry ≡ None → result ≡ false }
    {
        self.entry.is_some_and(|e| e.table == table)
    }

    // What has to stand at place i of a table, where all is v but the entry that the case names.
    pub fn expected(&self, table: Table, i: usize, v: u32) -> u32
        ensures { self.now.entry ≡ None → result ≡ v }
    {
        match self.entry {
            Some(e) if e.table == table && e.place == i => e.value,
            _ => v,
        }
    }
}

// Number i of a head; a byte behind its end counts as 0.
fn number(s: &[u8], i: usize) -> u32
    requires { i < 13 }
{
    let k = 4 * i;
    u32::from_le_bytes([
        lexer::byte_at(s, k),
        lexer::byte_at(s, k + 1),
        lexer::byte_at(s, k + 2),
        lexer::byte_at(s, k + 3),
    ])
}

fn read_answer(s: &[u8]) -> Answer {
    Answer {
        number: number(s, 7),
        place: number(s, 8),
        text: number(s, 9),
        steps: number(s, 10),
        cells: number(s, 11),
        length: number(s, 12),
    }
}

// The entry that stands in front of a wrong case; none where its number names no table.
pub fn read_entry(s: &[u8]) -> Option<Entry> {
    let table = Table::try_from(number(s, 0)).ok()?;
    Some(Entry {
        table,
        place: number(s, 1) as usize,
        value: number(s, 2),
    })
}

// The case of this head.
pub fn read_case(s: &[u8], entry: Option<Entry>) -> Case
    ensures { result.entry ≡ entry }
{
    Case {
        program: number(s, 0),
        object: number(s, 1),
        text: number(s, 2),
        steps: number(s, 3),
        names: number(s, 4),
        cells: number(s, 5),
        room: number(s, 6),
        answer: read_answer(s),
        entry,
    }
}
