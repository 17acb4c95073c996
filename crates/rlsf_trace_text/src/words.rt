//! Iteration over the words of a line.

ghost use Rattle.std.specs.Prelude.{◌≡◌};
ghost use Rattle.std.specs.Str.{bytes_eq};

use crate::cut::cut;
use crate::fault::Fault;

/// The words of a line, from the first on. Each single space ends a word, and an empty word is a word.
#[derive(Drop)]
pub(crate) struct Words<'a> {
    // What follows the last space that was passed.
    rest: Option<&'a [u8]>,
}

impl<'a> Words<'a> {
    ghost use Rattle.std.specs.Prelude.{◌≡◌, [], ◌∷◌, MatchOption};
    ghost use Rattle.rlsf_trace_text.specs.FallibleSteps.{ReadsAs};
    ghost use Rattle.rlsf_trace_text.specs.Words.{words, words_left, exactly_one, exactly_two, exactly_three};

    /// The words of `line`.
    pub(crate) fn new(line: &'a [u8]) -> Words<'a>
        ensures { words_left result ≡ words line.now }
    {
        Words { rest: Some(line) }
    }

    /// The next word, if there is one.
    #[tactic(auto, unfolding(crate::specs::Words::words))]
    pub(crate) fn next(&mut self) -> Option<&'a [u8]>
        ensures { MatchOption result ((words_left self.old ≡ []) × (words_left self.new ≡ []))
            (λ word. words_left self.old ≡ word.now ∷ words_left self.new) }
    {
        match self.rest {
            Some(rest) => {
                let (word, after) = cut(rest, b' ');
                self.rest = after;
                Some(word)
            }
            None => None,
        }
    }

    /// The one word that is left. More or none are a fault.
    pub(crate) fn exactly_one(mut self) -> Result<&'a [u8], Fault>
        ensures { ReadsAs (λ word. word.now) result (exactly_one (words_left self.entry)) }
    {
        match (self.next(), self.next()) {
            (Some(word), None) => Ok(word),
            _ => Err(Fault::FieldCount),
        }
    }

    /// The two words that are left. More or fewer are a fault.
    pub(crate) fn exactly_two(mut self) -> Result<(&'a [u8], &'a [u8]), Fault>
        ensures { ReadsAs (λ both. (both.0.now, both.1.now)) result
            (exactly_two (words_left self.entry)) }
    {
        let Some(first) = self.next() else {
            return Err(Fault::FieldCount);
        };
        let second = self.exactly_one()?;
        Ok((first, second))
    }

    /// The three words that are left. More or fewer are a fault.
    pub(crate) fn exactly_three(mut self) -> Result<(&'a [u8], &'a [u8], &'a [u8]), Fault>
        ensures { ReadsAs (λ all. (all.0.now, all.1.now, all.2.now)) result
            (exactly_three (words_left self.entry)) }
    {
        let Some(first) = self.next() else {
            return Err(Fault::FieldCount);
        };
        let (second, third) = self.exactly_two()?;
        Ok((first, second, third))
    }
}

/// Whether two words are equal.
pub(crate) fn is_same(word: &[u8], other: &[u8]) -> bool
    ensures { result ≡ bytes_eq word.now other.now }
{
    word == other
}
