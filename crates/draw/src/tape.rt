// A source of numbers written down beforehand, taken in order; past their end it answers 0.
ghost use Rattle.std.specs.Prelude.{◌≡◌, ◌<◌, ◌≤◌, length, Ok, Err};
ghost use Rattle.draw.specs.Tapes.{first, others, tape, tape_fair};
ghost use Rattle.draw.specs.declared.refusal.BadSource.TheVariants.{LongTape};

use crate::{BadSource, DrawSource};

#[derive(Clone, Copy)]
pub struct Tape<'a> {
    rest: &'a [u16],
}

impl<'a> Tape<'a> {
    // A tape of these numbers; more than 512 make none.
    pub fn new(numbers: &'a [u16]) -> Result<Tape<'a>, BadSource>
        ensures { elim result [ Ok t ↦ (length numbers.now ≤ 512) × (t.rest.now ≡ numbers.now) | Err e ↦ (512 < length numbers.now) × (e ≡ LongTape) ] }
    {
        if numbers.len() > 512 {
            return Err(BadSource::LongTape);
        }
        Ok(Tape { rest: numbers })
    }

    // The next number, or 0 past the end.
    fn take(&mut self) -> u16
        ensures number { result ≡ first self.old.rest.now }
        ensures rest { self.new.rest.now ≡ others self.old.rest.now }
    {
        self.rest.split_off_first().copied().unwrap_or(0)
    }
}

impl<'a> DrawSource for Tape<'a> {
    ghost draws = { tape };

    ghost state = { λ s. s.rest.now };

    ghost fair = { tape_fair };

    fn draw(&mut self, n: u16) -> u16 {
        // The seeded source's test too: one impl for every stream of numbers would forbid callers a source of their own.
        if n == 0 {
            return 0;
        }
        self.take() % n
    }
}
