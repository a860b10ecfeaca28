// Rows of marks, a byte for each number: a byte other than 0 is a mark.
ghost use Rattle.std.specs.Prelude.{◌≡◌, ℕ, Bool, true, false, List, replicate, slice_index_or, slice_set};
ghost use Rattle.scratch.specs.Marks.{marked};

// How many bytes a call works in: one for each of 64 regions, then one for each of 256 places.
pub const WORK_MARKS: usize = 320;

// A mark for each region that a world may have.
pub type Regions = [u8; 64];

// A mark for each place that a world may have. The two rows are handed over one by one: a struct of both would hold
// references, and every contract would have to say that they still refer to the same bytes.
pub type Places = [u8; 256];

// A row of marks. A number past its end is never marked.
pub trait Marks {
    // How many numbers there are, and which of them are marked.
    ghost count: { ℕ };

    ghost seen: { Self → List Bool };

    // Whether a number is marked.
    fn has(&self, number: usize) -> bool
        ensures { result ≡ slice_index_or (seen self.now) number false };

    // Marks one number more.
    fn mark(&mut self, number: usize)
        ensures { seen self.new ≡ slice_set (seen self.old) number true };

    // Forgets every mark; a call starts so, since its caller may lend any bytes.
    fn clear(&mut self)
        ensures { seen self.new ≡ replicate count false };
}

impl<const N: usize> Marks for [u8; N] {
    ghost count = { N };

    ghost seen = { marked N };

    fn has(&self, number: usize) -> bool {
        number < N && self[number] != 0
    }

    #[tactic(auto, using(crate::proofs::Rows::write, crate::proofs::Rows::write_past))]
    fn mark(&mut self, number: usize) {
        // No `get_mut`: of an array it leaves a proof without the other elements.
        if number < N {
            self[number] = 1;
        }
    }

    #[tactic(auto, using(crate::proofs::Rows::wiped_row, crate::proofs::Rows::wiped_front))]
    fn clear(&mut self) {
        self.fill(0);
    }
}
