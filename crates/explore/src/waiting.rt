// Values that wait, the last of them first: regions for their gates to be crossed, answers for the words of a rule.
ghost use Rattle.std.specs.Prelude.{◌≡◌, ◌<◌, [], ◌∷◌, length, MatchOption};
ghost use Rattle.scratch.specs.Held.{held as stacked, room};
ghost use Rattle.explore.specs.Meeting.{LaidDown};

use scratch::Stack;

// As many as N can wait.
#[derive(Drop)]
pub(crate) struct Waiting<'a, T, const N: usize> {
    stack: Stack<'a, T>,
    ghost for_all: { room stack ≡ N },
}

impl<'a, T: Copy, const N: usize> Waiting<'a, T, N> {
    // None waits yet.
    pub(crate) fn new(cells: &'a mut [T; N]) -> Waiting<'a, T, N>
        ensures { stacked result.stack ≡ [] }
    {
        Waiting {
            stack: Stack::new(cells),
        }
    }

    // Lets a value wait, if there is room.
    pub(crate) fn lay(&mut self, value: T) -> Option<()>
        ensures { MatchOption result (length (stacked self.old.stack) ≡ N) (λ _. LaidDown N value (stacked self.old.stack) (stacked self.new.stack)) }
    {
        self.stack.push(value).ok()
    }

    // Lets a value wait where there is room.
    pub(crate) fn push(&mut self, value: T)
        requires { length (stacked self.old.stack) < N }
        ensures { stacked self.new.stack ≡ value ∷ stacked self.old.stack }
    {
        self.lay(value).unwrap();
    }

    // Takes the value that came last.
    pub(crate) fn pop(&mut self) -> Option<T>
        ensures { MatchOption result ((stacked self.old.stack ≡ []) × (stacked self.new.stack ≡ [])) (λ value. (stacked self.old.stack ≡ value ∷ stacked self.new.stack) × (length (stacked self.new.stack) < N)) }
    {
        self.stack.pop()
    }
}
