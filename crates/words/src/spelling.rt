// How words, names and amounts are spelled.
ghost use Rattle.std.specs.Prelude.{◌≡◌, ◌≤◌, IsTrue, length};
ghost use Rattle.std.specs.List.{list_all};
ghost use Rattle.words.specs.Spelling.{digit, in_alphabet, longest, may_begin, spelled, is_word, is_name, number, amount};

// What words, names and amounts are spelled with: each has its bytes, its length and its first byte.
#[derive(Clone, Copy)]
pub enum Alphabet {
    Wording,
    Naming,
    Counting,
}

impl Alphabet {
    fn holds(self, byte: u8) -> bool
        ensures { result ≡ in_alphabet self byte }
    {
        match self {
            Alphabet::Wording => matches!(byte, b'a'..=b'z' | b'0'..=b'9' | b':'),
            Alphabet::Naming => matches!(byte, b'a'..=b'z' | b'0'..=b'9'),
            Alphabet::Counting => byte.is_ascii_digit(),
        }
    }

    fn holds_all(self, part: &[u8]) -> bool
        ensures { result ≡ list_all (in_alphabet self) part.now }
    {
        part.iter().all(|byte| self.holds(*byte))
    }

    // The most bytes that a row may have.
    fn longest(self) -> usize
        ensures { result ≡ longest self }
    {
        match self {
            Alphabet::Wording => 16,
            Alphabet::Naming => 12,
            Alphabet::Counting => 3,
        }
    }

    // Whether a row may begin with the byte.
    fn begins(self, byte: u8) -> bool
        ensures { result ≡ may_begin self byte }
    {
        match self {
            Alphabet::Wording => true,
            Alphabet::Naming => byte.is_ascii_lowercase(),
            Alphabet::Counting => byte != b'0',
        }
    }

    fn spells(self, part: &[u8]) -> bool
        ensures { result ≡ spelled self part.now }
    {
        !part.is_empty()
            && part.len() <= self.longest()
            && self.begins(part[0])
            && self.holds_all(part)
    }
}

// Whether the bytes are a word of a world text.
#[tactic(auto, unfolding(crate::specs::Spelling::is_word))]
pub fn is_word(part: &[u8]) -> bool
    ensures { result ≡ is_word part.now }
{
    Alphabet::Wording.spells(part)
}

// Whether the bytes can name a kind, a region or a place.
#[tactic(auto, unfolding(crate::specs::Spelling::is_name))]
pub fn is_name(part: &[u8]) -> bool
    ensures { result ≡ is_name part.now }
{
    Alphabet::Naming.spells(part)
}

// The number that one to three digits spell.
fn number_of(digits: &[u8]) -> u16
    requires digits { IsTrue (list_all digit digits.now) }
    requires few { length digits.now ≤ 3 }
    ensures { result ≡ number 0 digits.now }
{
    // No `fold`: its closure would have to bound the number so far at each call, and no clause of it can.
    let mut so_far: u16 = 0;
    for byte in digits {
        so_far = so_far * 10 + u16::from(*byte - b'0');
    }
    so_far
}

// The amount that the bytes spell, if they do.
#[tactic(auto, unfolding(crate::specs::Spelling::amount))]
pub fn amount_of(part: &[u8]) -> Option<u16>
    ensures { result ≡ amount part.now }
{
    Alphabet::Counting.spells(part).then(|| number_of(part))
}
