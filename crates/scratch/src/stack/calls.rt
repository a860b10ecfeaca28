// Making a stack, pushing and popping.
ghost use Rattle.std.specs.Prelude.{◌≡◌, [], ◌∷◌, length, MatchOption, MatchResult};
ghost use Rattle.scratch.specs.Held.{held, room, Laid, Full, Taken, Empty};

use super::Stack;

impl<'a, T: Copy> Stack<'a, T> {
    // An empty stack, whatever the cells held.
    #[tactic(auto, unfolding(crate::specs::Held::held, crate::specs::Held::room))]
    pub fn new(cells: &'a mut [T]) -> Stack<'a, T>
        ensures held { held result ≡ [] }
        ensures room { room result ≡ length cells.old }
    {
        Stack { cells, len: 0 }
    }

    // Lays a value on top; a full stack gives it back and stays as it is.
    pub fn push(&mut self, value: T) -> Result<(), T>
        ensures cases { MatchResult result (λ _. Laid value self.old self.new) (Full value self.old self.new) }
        ensures room { room self.new ≡ room self.old }
    {
        if self.len >= self.cells.len() {
            return Err(value);
        }
        self.cells[self.len] = value;
        self.len += 1;
        Ok(())
    }

    // Takes the newest value off.
    #[tactic(auto, using(crate::proofs::Stacks::popped, crate::proofs::Stacks::waiting), unfolding(crate::specs::Held::held, crate::specs::Held::room))]
    pub fn pop(&mut self) -> Option<T>
        ensures cases { MatchOption result (Empty self.old self.new) (Taken self.old self.new) }
        ensures room { room self.new ≡ room self.old }
    {
        self.len = self.len.checked_sub(1)?;
        Some(self.cells[self.len])
    }
}
