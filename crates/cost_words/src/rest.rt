ghost use Rattle.std.specs.Prelude.{◌≡◌, ◌<◌, ◌+◌, ◌^◌, length};

/// The words that are left, and the index of the first of them, counted from 1.
#[derive(Clone, Copy)]
pub(crate) struct Rest<'a> {
    pub(crate) words: &'a [String],
    pub(crate) index: u64,
    ghost fits: { index + length words.now < 2 ^ 64 },
}

impl<'a> Rest<'a> {
    ghost use Rattle.std.specs.Prelude.{◌∷◌, [], MatchOption};
    ghost use Rattle.cost_words.specs.Reading.{words_of};

    /// The next word, and the words behind it.
    pub(crate) fn split(self) -> Option<(&'a str, Rest<'a>)>
        ensures words { MatchOption result (words_of self.entry.words.now ≡ []) (λ p. words_of self.entry.words.now ≡ p.0.now ∷ words_of p.1.words.now) }
        ensures index { MatchOption result (Unit {0}) (λ p. p.1.index ≡ self.entry.index + 1) }
    {
        match self.words {
            [] => None,
            [word, words @ ..] => Some((
                word.as_str(),
                Rest {
                    words,
                    index: self.index + 1,
                },
            )),
        }
    }
}
