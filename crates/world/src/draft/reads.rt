// Reading a draft's tables.
ghost use Rattle.std.specs.Prelude.{◌≡◌, ℕ, ◌<◌, ◌≤◌, cond, length, slice_index_or};
ghost use Rattle.world.specs.Listed.{listed};
ghost use Rattle.world.specs.Rows.{words};
ghost use Rattle.world.specs.Worlds.{regions_of};

use super::Draft;
use crate::rows::{Gate, Part, Place};
use model::RuleWord;

impl Draft {
    pub fn region_count(&self) -> u8
        ensures { result ≡ regions_of self.now }
    {
        self.latest.len() as u8
    }

    // The codes of the kinds, in order.
    pub fn kinds(&self) -> &[u16]
        ensures { result.now ≡ listed self.now.kinds }
    {
        self.kinds.as_slice()
    }

    pub fn gates(&self) -> &[Gate]
        ensures { result.now ≡ listed self.now.gates }
    {
        self.gates.as_slice()
    }

    // The index of the last gate that leaves a region.
    pub fn last_gate(&self, region: usize) -> Option<u16>
        ensures { result ≡ slice_index_or (listed self.now.latest) region None }
    {
        self.latest.get_or(region, None)
    }

    pub fn places(&self) -> &[Place]
        ensures { result.now ≡ listed self.now.places }
    {
        self.places.as_slice()
    }

    // The codes of the pool's items, in order.
    pub fn pool(&self) -> &[u16]
        ensures { result.now ≡ listed self.now.pool }
    {
        self.pool.as_slice()
    }

    // The codes of the stock's items, in order.
    pub fn stock(&self) -> &[u16]
        ensures { result.now ≡ listed self.now.stock }
    {
        self.stock.as_slice()
    }

    // The rule of the goal, once it is set.
    pub fn goal(&self) -> Option<Part>
        ensures { result ≡ self.now.goal }
    {
        self.goal
    }

    pub fn word_count(&self) -> usize
        ensures { result ≡ length (listed self.now.words) }
    {
        self.words.len()
    }

    // The words of a part of the table; none where it does not lie inside.
    pub fn rule(&self, part: Part) -> &[RuleWord]
        ensures { result.now ≡ words (listed self.now.words) part }
    {
        let start = usize::from(part.start);
        let len = usize::from(part.len);
        let words = self.words.as_slice().get(start..start + len);
        words.unwrap_or(&[])
    }
}
