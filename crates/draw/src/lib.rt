// Draw sources: where a shuffle gets its numbers from.
#![tactic(auto)]

mod dealing;
mod refusal;
mod seeded;
mod tape;

ghost use Rattle.std.specs.Prelude.{◌≡◌};
ghost use Rattle.draw.specs.Source.{Source, Fair};

pub use dealing::{Drawn, deal};
pub use refusal::BadSource;
pub use seeded::Seeded;
pub use tape::Tape;

// A source of numbers below a bound; no draw is refused.
pub trait DrawSource: Sized {
    // The states, the answer to a draw at a state, and the state after it.
    ghost draws: { Source };

    // The state that the source is in.
    ghost state: { Self → draws.State };

    // Answers are below what was asked for, and draw 0 changes nothing: each source shows it.
    ghost fair: { Fair draws };

    // A number below n, or 0 where n is 0.
    fn draw(&mut self, n: u16) -> u16
        ensures answer { result ≡ draws.drawn (state self.old) n }
        ensures next { state self.new ≡ draws.after (state self.old) n };
}
