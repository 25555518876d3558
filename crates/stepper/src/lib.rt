// A reader that keeps the text and its place. Each function takes the reader apart and calls the word reader on the text
// and the place.
#![tactic(auto)]

ghost use Rattle.std.specs.Prelude.{◌≡◌};
ghost use Rattle.stepper.specs.Steps.{next_of, behind_word};

use language::Token;

#[derive(Clone, Copy, Debug, PartialEq, Eq)]
pub struct Stepper<'a> {
    pub text: &'a [u8],
    pub place: usize,
}

// At the text's start.
pub fn start<'a>(text: &'a [u8]) -> Stepper<'a>
    ensures { (result.text ≡ text.entry) × (result.place ≡ 0) }
{
    Stepper { text, place: 0 }
}

// Place and length of the next word, number or mark; at the end and beyond it the text's length and 0.
pub fn word<'a>(r: Stepper<'a>) -> Token
    ensures { result ≡ next_of r.entry }
{
    lexer::next_word(r.text, r.place)
}

// The same text, behind that word; at the end and beyond it at the text's length.
pub fn behind<'a>(r: Stepper<'a>) -> Stepper<'a>
    ensures { result ≡ behind_word r.entry }
{
    let t = lexer::next_word(r.text, r.place);
    Stepper {
        text: r.text,
        place: t.place + t.length,
    }
}

// One step: the next word, number or mark, and the reader stands behind it.
pub fn step<'s, 'a>(r: &'s mut Stepper<'a>) -> Token
    ensures { (result ≡ next_of r.old) × (r.new ≡ behind_word r.old) }
{
    let t = lexer::next_word(r.text, r.place);
    r.place = t.place + t.length;
    t
}
