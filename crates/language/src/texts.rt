// Which text of a call an answer speaks of.
ghost use Rattle.std.specs.Prelude.{◌≡◌};
ghost use Rattle.language.specs.Texts.{number_of_text};

// The program or the object; the discriminants are the numbers that an answer holds.
#[derive(Clone, Copy, Debug, PartialEq, Eq)]
pub enum Text {
    Program = 1,
    Object = 2,
}

impl From<Text> for u32 {
    ghost from_gives = { λ t n. n ≡ number_of_text t };

    fn from(text: Text) -> u32 {
        text as u32
    }
}
