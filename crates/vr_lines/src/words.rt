//! The words of a line.
ghost use Rattle.std.specs.Prelude.{◌≡◌, ◌∷◌, []};
ghost use Rattle.std.specs.Option.{option_map, option_map_or};
ghost use Rattle.std.specs.Str.{bytes_eq};
ghost use Rattle.vr_lines.specs.Words.{is_end, only_word, words_left, words_of};

/// The words of a line that are still to be read.
#[derive(Clone, Copy)]
pub struct Words<'a> {
    rest: Option<&'a [u8]>,
}

/// The bytes before the first space, and those after it, where there is one.
#[tactic(auto, unfolding(crate::specs::Words::words_of))]
fn cut(line: &[u8]) -> (&[u8], Option<&[u8]>)
    ensures { words_of line.now ≡ result.0.now ∷ option_map_or (λ rest. words_of rest.now) result.1 [] }
{
    for (at, byte) in line.iter().enumerate() {
        if *byte == b' ' {
            return (&line[..at], Some(&line[at + 1..]));
        }
    }
    (line, None)
}

impl<'a> Words<'a> {
    /// The words between single spaces.
    pub fn of(line: &'a [u8]) -> Words<'a>
        ensures { words_left result ≡ words_of line.now }
    {
        Words { rest: Some(line) }
    }

    /// The first word, and those after it.
    pub fn first(self) -> Option<(&'a [u8], Words<'a>)>
        ensures { words_left self.entry ≡ option_map_or (λ p. p.0.now ∷ words_left p.1) result [] }
    {
        let (word, rest) = cut(self.rest?);
        Some((word, Words { rest }))
    }

    /// The one word that is left, `None` where there is none and where there are more.
    pub fn only(self) -> Option<&'a [u8]>
        ensures { option_map (λ word. word.now) result ≡ only_word (words_left self.entry) }
    {
        let (word, words) = self.first()?;
        if words.is_end() { Some(word) } else { None }
    }

    /// Whether no word is left.
    pub fn is_end(self) -> bool
        ensures { result ≡ is_end (words_left self.entry) }
    {
        match self.first() {
            Some(_) => false,
            None => true,
        }
    }
}

/// Whether a word is this one.
pub fn is_word(word: &[u8], text: &str) -> bool
    ensures { result ≡ bytes_eq word.now text.now }
{
    word == text.as_bytes()
}
