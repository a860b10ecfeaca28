// Words that borrow the text.
ghost use Rattle.std.specs.Prelude.{◌≡◌};
ghost use Rattle.words.specs.Spelling.{amount};
ghost use Rattle.words.specs.Splitting.{front, behind};
ghost use Rattle.words.specs.Saying.{class, own, with_amount};
ghost use Rattle.words.specs.Words.{bytes, says};

use crate::{amount_of, cut, is_name};

// What a word is to a rule, with its bytes; an amount has its name and its number too. That each case borrows its bytes
// is a rule of the project.
#[derive(Clone, Copy)]
pub enum Word<'t> {
    Free(&'t [u8]),
    And(&'t [u8]),
    Or(&'t [u8]),
    Name(&'t [u8]),
    Amount(&'t [u8], &'t [u8], u16),
    Other(&'t [u8]),
}

// A word, and where in the text it begins.
#[derive(Clone, Copy)]
pub struct Placed<'t> {
    pub start: usize,
    pub word: Word<'t>,
}

impl<'t> Word<'t> {
    // The bytes of the text that the word was read from.
    pub fn bytes(self) -> &'t [u8]
        ensures { result.now ≡ bytes self.entry }
    {
        match self {
            Word::Free(bytes)
            | Word::And(bytes)
            | Word::Or(bytes)
            | Word::Name(bytes)
            | Word::Amount(bytes, _, _)
            | Word::Other(bytes) => bytes,
        }
    }

    // Whether the word is one of the rules' own, which no kind can be called.
    pub fn is_own(self) -> bool
        ensures { result ≡ own (says self.entry) }
    {
        matches!(self, Word::Free(_) | Word::And(_) | Word::Or(_))
    }
}

// A word that is no name: a name with an amount, or nothing that a rule reads.
#[tactic(auto, unfolding(crate::specs::Spelling::amount))]
fn amount_word(part: &[u8]) -> Word<'_>
    ensures same { bytes result ≡ part.now }
    ensures says { says result ≡ with_amount (front 58 part.now) (amount (behind 58 part.now)) }
{
    if let Some((name, rest)) = cut(b':', part)
        && let Some(most) = amount_of(rest)
        && is_name(name)
    {
        Word::Amount(part, name, most)
    } else {
        Word::Other(part)
    }
}

// The word that the bytes are to a rule.
#[tactic(auto, unfolding(crate::specs::Saying::class))]
pub fn word_of(part: &[u8]) -> Word<'_>
    ensures same { bytes result ≡ part.now }
    ensures says { says result ≡ class part.now }
{
    match part {
        b"free" => Word::Free(part),
        b"and" => Word::And(part),
        b"or" => Word::Or(part),
        _ if is_name(part) => Word::Name(part),
        _ => amount_word(part),
    }
}
