// A list of at most MAX rows, with room for all of them from the start.
ghost use Rattle.std.specs.Prelude.{◌≤◌, length, vec_capacity};

use thiserror::Error;

mod calls;

// There is no room for what was to be put in.
#[derive(Clone, Copy, PartialEq, Eq, Debug, Error)]
#[error("the table is full")]
pub struct Full;

// Not an `ArrayVec`: it would put all rows into the record itself, tens of kilobytes in a draft that is moved by value.
#[derive(Drop)]
pub struct Table<T, const MAX: usize> {
    rows: Vec<T>,
    ghost few: { length rows.items ≤ MAX },
    ghost room: { MAX ≤ vec_capacity rows },
}
