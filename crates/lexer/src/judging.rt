// What a word or number is where an object, a part or a defined name may stand; or the refusal.
ghost use Rattle.std.specs.Prelude.{◌≡◌};
ghost use Rattle.language.specs.Bytes.{bytes, same_bytes};
ghost use Rattle.language.specs.Reading.{word_at};
ghost use Rattle.language.specs.Refusals.{refusal};
ghost use Rattle.language.specs.Judging.{judge_word, leading_zero, judge_integer, judge_negative, judge_atom, is_selector, judge_selector, judge_part, judge_name, refusal_of};
ghost use Rattle.lexer.specs.Classes.{test_of};
ghost use Rattle.lexer.specs.Judgements.{WordJudged, judge_symbol, judge_plain, atom_judged, selector_judged, part_judged, name_judged};

use super::{Class, Part, classes, numbers, reader, vocabulary};
use language::{Refusal, Val};

// A word is refused by its length, then by its bytes' class.
fn judge_word(word: &[u8], class: Class) -> Result<(), Refusal>
    ensures { WordJudged (judge_word (test_of class) word.now) word.now result }
{
    if language::WORD_LIMIT < word.len() {
        return Err(Refusal::LongWord);
    }
    if !classes::all_pass(class, word) {
        return Err(Refusal::NotInGrammar);
    }
    Ok(())
}

// Whether digits stand after a first 0.
fn has_leading_zero(digits: &[u8]) -> bool
    ensures { result ≡ leading_zero digits.now }
{
    match digits {
        [first, _, ..] => *first == b'0',
        _ => false,
    }
}

// A number without a sign.
fn judge_integer(digits: &[u8]) -> Result<Val, Refusal>
    ensures { result ≡ atom_judged (judge_integer digits.now) }
{
    if !classes::all_pass(Class::Digit, digits) {
        return Err(Refusal::NotInGrammar);
    }
    if has_leading_zero(digits) {
        return Err(Refusal::BadNumber);
    }
    let v = numbers::value(digits);
    if language::LARGEST < v {
        return Err(Refusal::BadNumber);
    }
    Ok(Val {
        tag: language::POSITIVE,
        word: v,
    })
}

// A number's digits behind a minus.
fn judge_negative(digits: &[u8]) -> Result<Val, Refusal>
    ensures { result ≡ atom_judged (judge_negative digits.now) }
{
    let [first, ..] = digits else {
        return Err(Refusal::NotInGrammar);
    };
    if !classes::all_pass(Class::Digit, digits) {
        return Err(Refusal::NotInGrammar);
    }
    if *first == b'0' {
        return Err(Refusal::BadNumber);
    }
    let v = numbers::value(digits);
    if language::HALF < v {
        return Err(Refusal::BadNumber);
    }
    Ok(Val {
        tag: language::NEGATIVE,
        word: v - 1,
    })
}

// A symbol.
fn judge_symbol(word: &[u8]) -> Result<Val, Refusal>
    ensures { result ≡ atom_judged (judge_symbol word.now) }
{
    judge_word(word, Class::Symbol)?;
    Ok(Val {
        tag: language::SYMBOL,
        word: packing::pack(word),
    })
}

// The word, number or mark where an object may stand.
pub fn judge_atom(word: &[u8]) -> Result<Val, Refusal>
    ensures { result ≡ atom_judged (judge_atom word.now) }
{
    let [first, rest @ ..] = word else {
        return Err(Refusal::NotInGrammar);
    };
    if classes::is_digit(*first) {
        return judge_integer(word);
    }
    if classes::is_letter(*first) {
        return judge_symbol(word);
    }
    if *first != b'-' {
        return Err(Refusal::NotInGrammar);
    }
    judge_negative(rest)
}

// Whether digits are a selector's: from 1 to 255, without a leading zero.
fn is_selector(digits: &[u8]) -> bool
    ensures { result ≡ is_selector digits.now }
{
    let [first, ..] = digits else {
        return false;
    };
    if *first == b'0' {
        return false;
    }
    numbers::value(digits) <= language::SELECTOR_LIMIT
}

// The selector that digits write.
fn judge_digits(digits: &[u8]) -> Result<u32, Refusal>
    ensures { result ≡ selector_judged digits.now }
{
    if !is_selector(digits) {
        return Err(Refusal::BadNumber);
    }
    Ok(numbers::value(digits) as u32)
}

// Whether an `r` and nothing more stands there.
fn is_r(rest: &[u8]) -> bool
    ensures { result ≡ same_bytes rest.now (bytes "r") }
{
    match rest {
        [b] => *b == b'r',
        _ => false,
    }
}

// A selector: digits, or digits and an `r`.
fn judge_selector(word: &[u8]) -> Result<Part, Refusal>
    ensures { result ≡ part_judged (judge_selector word.now) }
{
    let (digits, rest) = word.split_at(reader::span(word, Class::Digit));
    if rest.is_empty() {
        return Ok(Part::Select(judge_digits(digits)?));
    }
    if !is_r(rest) {
        return Err(Refusal::NotInGrammar);
    }
    Ok(Part::SelectRight(judge_digits(digits)?))
}

// A primitive or a name.
fn judge_plain(word: &[u8]) -> Result<Part, Refusal>
    ensures { result ≡ part_judged (judge_plain word.now) }
{
    judge_word(word, Class::Name)?;
    Ok(match vocabulary::find_word(word) {
        Some(p) => Part::Primitive(p),
        None => Part::Name(packing::pack(word)),
    })
}

// The word, number or mark where a part may stand.
pub fn judge_part(word: &[u8]) -> Result<Part, Refusal>
    ensures { result ≡ part_judged (judge_part word.now) }
{
    let [first, ..] = word else {
        return Err(Refusal::NotInGrammar);
    };
    if classes::is_digit(*first) {
        return judge_selector(word);
    }
    if classes::is_letter(*first) {
        return judge_plain(word);
    }
    Err(Refusal::NotInGrammar)
}

// The word, number or mark where a defined name may stand.
pub fn judge_name(word: &[u8]) -> Result<u64, Refusal>
    ensures { result ≡ name_judged (judge_name word.now) }
{
    let [first, ..] = word else {
        return Err(Refusal::NotInGrammar);
    };
    if !classes::is_letter(*first) {
        return Err(Refusal::NotInGrammar);
    }
    judge_word(word, Class::Name)?;
    match vocabulary::find_word(word) {
        Some(_) => Err(Refusal::NotInGrammar),
        None => Ok(packing::pack(word)),
    }
}

// The refusal where nothing that stands at p fits: 9 for a word over 12 characters, 6 for all else.
#[cold]
pub fn refusal(s: &[u8], p: usize) -> Refusal
    ensures { result ≡ refusal (refusal_of (word_at s.now p)) }
{
    if !classes::is_letter(classes::byte_at(s, p)) {
        return Refusal::NotInGrammar;
    }
    if language::WORD_LIMIT < reader::size_at(s, p) {
        return Refusal::LongWord;
    }
    Refusal::NotInGrammar
}
