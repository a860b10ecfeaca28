// A source that goes on from a seed: a 64-bit number, never 0, mixed anew by each draw.
ghost use Rattle.std.specs.Prelude.{◌≡◌, ◌<◌, Ok, Err};
ghost use Rattle.draw.specs.Xorshift.{seeded, seeded_fair, xorshift};
ghost use Rattle.draw.specs.declared.refusal.BadSource.TheVariants.{ZeroSeed};

use crate::{BadSource, DrawSource};

#[derive(Clone, Copy)]
pub struct Seeded {
    state: u64,
    ghost live: { 0 < state },
}

impl Seeded {
    // A source in the seed's state; 0 makes none.
    pub fn new(seed: u64) -> Result<Seeded, BadSource>
        ensures { elim result [ Ok s ↦ (0 < seed) × (s.state ≡ seed) | Err e ↦ (seed ≡ 0) × (e ≡ ZeroSeed) ] }
    {
        if seed == 0 {
            return Err(BadSource::ZeroSeed);
        }
        Ok(Seeded { state: seed })
    }

    // The state, which is never 0.
    pub fn state(&self) -> u64
        ensures value { result ≡ self.now.state }
        ensures live { 0 < result }
    {
        self.state
    }
}

fn mixed(s: u64) -> u64
    ensures { result ≡ xorshift s }
{
    let a = s ^ (s << 13);
    let b = a ^ (a >> 7);
    b ^ (b << 17)
}

impl DrawSource for Seeded {
    ghost draws = { seeded };

    ghost state = { λ s. s.state };

    ghost fair = { seeded_fair };

    #[tactic(auto, using(crate::proofs::Live::xorshift_live))]
    fn draw(&mut self, n: u16) -> u16 {
        if n == 0 {
            return 0;
        }
        self.state = mixed(self.state);
        (self.state % u64::from(n)) as u16
    }
}
