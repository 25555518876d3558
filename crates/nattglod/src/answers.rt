// Answers by the numbers that they carry. Numbers not named are 0.
ghost use Rattle.std.specs.Prelude.{◌≡◌, ◌-◌, ◌≤◌};
ghost use Rattle.language.specs.Numbers.{object_limit};
ghost use Rattle.language.specs.Answers.{bare, at, counting};
ghost use Rattle.language.specs.Refusals.{number_of};
ghost use Rattle.language.specs.Texts.{number_of_text};

use language::{Answer, Refusal, RefusedText, Text};

// A refusal's number alone.
pub fn bare(refusal: Refusal) -> Answer
    ensures { result ≡ bare (number_of refusal) }
{
    counting(u32::from(refusal), 0, 0, 0)
}

// A refused text, with the place in it, and which of the two it is.
pub fn at(refused: RefusedText, text: Text) -> Answer
    requires { refused.place ≤ object_limit }
    ensures { result ≡ at (number_of refused.refusal) refused.place (number_of_text text) }
{
    Answer {
        number: u32::from(refused.refusal),
        place: refused.place as u32,
        text: u32::from(text),
        steps: 0,
        cells: 0,
        length: 0,
    }
}

// Steps, cells and bytes that were counted.
pub fn counting(number: u32, steps: u32, cells: u32, length: u32) -> Answer
    ensures { result ≡ counting number steps cells length }
{
    Answer {
        number,
        place: 0,
        text: 0,
        steps,
        cells,
        length,
    }
}

// What a budget was, less what is left of it.
pub fn used(budget: u32, left: u32) -> u32
    ensures { result ≡ budget - left }
{
    budget.saturating_sub(left)
}
