// Walks over texts, words, names and constants.
ghost use Rattle.std.specs.Prelude.{[], ◌∷◌};
ghost use Rattle.lexer.specs.Vocabulary.{spelled_at};
ghost use Rattle.objects.specs.Writings.{PutText};
ghost use Rattle.program_writer.specs.Walks.{Behind, Kept, Wrote, NameWalked, ConstantWalked};

use super::Writer;
use language::Val;

// A place past 16,384.
pub const TOO_LONG: usize = 16385;

// The place n bytes behind `at`; past 16,384 it only says so.
fn behind(at: usize, n: usize) -> usize
    ensures { Behind at n result }
{
    at.saturating_add(n).min(TOO_LONG)
}

impl<'a> Writer<'a> {
    // Walks over a text.
    pub fn text(&mut self, text: &[u8])
        ensures kept { Kept self.old self.new }
        ensures wrote { Wrote text.now self.old.at self.new.at self.old.out.now self.new.out.now }
        ensures put { PutText self.old.out.now self.old.at text.now self.new.out.now }
    {
        objects::put_text(self.out, self.at, text);
        self.at = behind(self.at, text.len());
    }

    // Walks over one byte.
    pub fn mark(&mut self, b: u8)
        ensures kept { Kept self.old self.new }
        ensures wrote { Wrote (b ∷ []) self.old.at self.new.at self.old.out.now self.new.out.now }
    {
        self.text(&[b]);
    }

    // Walks over the primitive word with this code.
    pub fn word(&mut self, code: u32)
        ensures kept { Kept self.old self.new }
        ensures wrote { Wrote (spelled_at code) self.old.at self.new.at self.old.out.now self.new.out.now }
    {
        self.text(lexer::spelling(code));
    }

    // Walks over the name that `word` is packed from.
    pub fn name(&mut self, word: u64)
        ensures kept { Kept self.old self.new }
        ensures wrote { NameWalked word self.old.at self.new.at self.old.out.now self.new.out.now }
    {
        let mut letters = [0u8; language::WORD_LIMIT];
        let n = packing::unpack(word, packing::Case::Lower, &mut letters);
        self.text(&letters[..n]);
    }

    // Walks over the object that v stands for.
    pub fn constant(&mut self, c: &[u32], v: Val)
        ensures kept { Kept self.old self.new }
        ensures wrote { ConstantWalked c.now v self.old.at self.new.at self.old.out.now self.new.out.now }
    {
        if language::WRITTEN_LIMIT < self.at {
            return;
        }
        let end = objects::walk_object(c, v, self.out, self.at, language::WRITTEN_LIMIT, 0);
        self.at = end.unwrap_or(TOO_LONG);
    }
}
