// Where a case is not as expected.
ghost use Rattle.std.specs.Prelude.{◌≡◌};

use std::fmt;

// What a case is compared in: the six numbers of its answer, the output, the form table, the cells lent and those behind them.
#[derive(Clone, Copy, Debug, PartialEq, Eq)]
pub enum Field {
    Number,
    Place,
    Text,
    Steps,
    Cells,
    Length,
    Output,
    FormTable,
    CellTable,
    NotLent,
}

impl fmt::Display for Field {
    fn fmt<W: fmt::Write>(&self, f: &mut fmt::Formatter<W>) -> fmt::Result {
        f.write_str(match self {
            Field::Number => "number",
            Field::Place => "place",
            Field::Text => "text",
            Field::Steps => "steps",
            Field::Cells => "cells",
            Field::Length => "length",
            Field::Output => "output",
            Field::FormTable => "form table",
            Field::CellTable => "cell table",
            Field::NotLent => "cells not lent",
        })
    }
}

// The field that differs, and the place in it; a number of the answer has none.
#[derive(Clone, Copy, Debug, PartialEq, Eq)]
pub struct Difference {
    pub field: Field,
    pub place: Option<usize>,
}

impl Difference {
    // In a number of the answer.
    pub fn of(field: Field) -> Difference
        ensures { (result.field ≡ field) × (result.place ≡ None) }
    {
        Difference { field, place: None }
    }

    // In an entry of what was lent.
    pub fn at(field: Field, place: usize) -> Difference
        ensures { (result.field ≡ field) × (result.place ≡ Some place) }
    {
        Difference {
            field,
            place: Some(place),
        }
    }
}
