// A stack over a borrowed slice.
ghost use Rattle.std.specs.Prelude.{◌≤◌, length};

mod calls;

// As many values as there are cells can wait. The cells are lent, with their count beside them: no memory is asked for.
#[derive(Drop)]
pub struct Stack<'a, T> {
    cells: &'a mut [T],
    len: usize,
    ghost within: { len ≤ length cells.now },
}
