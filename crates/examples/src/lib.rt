// The worked examples: shown of the definitions, and run as tests of the code.
#![tactic(auto)]

mod held;
mod yard;

ghost use Rattle.std.specs.Prelude.{◌≡◌, Ok};
ghost use Rattle.examples.specs.Examples.{Examples};

use draw::{BadSource, DrawSource, Seeded};
use held::several;
use inventory::Tiers;
pub use yard::world_a;

// What the examples come to, by the definitions alone.
pub fn examples_hold()
    ensures { Examples }
{}

// The level of a sword found five times.
pub fn five_swords() -> u16
    ensures { result ≡ 4 }
{
    several::<Tiers>(0, 5).level(0)
}

// What a source seeded with 1 answers to draw 10.
pub fn first_of_ten() -> Result<u16, BadSource>
    ensures { result ≡ Ok 1 }
{
    let mut source = Seeded::new(1)?;
    Ok(source.draw(10))
}

#[cfg(test)]
mod inventories;
#[cfg(test)]
mod sources;
#[cfg(test)]
mod worlds;
