// What is done with a table.
ghost use Rattle.std.specs.Prelude.{◌≡◌, ℕ, ◌+◌, ◌≤◌, [], ◌∷◌, ◌++◌, length, IfOk, OnOk, OnErr, is_ok, nat_le, nat_lt, slice_index_or, slice_set};

use super::{Full, Table};
use std::alloc::{AllocError, Global};

impl<T: Copy, const MAX: usize> Table<T, MAX> {
    // An empty table; all its memory is asked for here.
    pub fn new(heap: Global) -> Result<Table<T, MAX>, AllocError>
        ensures { IfOk result (λ t. t.rows.items ≡ []) }
    {
        let rows = Vec::with_capacity(heap, MAX)?;
        Ok(Table { rows })
    }

    pub fn len(&self) -> usize
        ensures { result ≡ length self.now.rows.items }
    {
        self.rows.len()
    }

    pub fn is_full(&self) -> bool
        ensures { result ≡ nat_le MAX (length self.now.rows.items) }
    {
        self.rows.len() >= MAX
    }

    // Whether there is room for so many rows more.
    pub fn has_room(&self, more: usize) -> bool
        ensures { result ≡ nat_le (length self.now.rows.items + more) MAX }
    {
        more <= MAX - self.rows.len()
    }

    pub fn as_slice(&self) -> &[T]
        ensures { result.now ≡ self.now.rows.items }
    {
        self.rows.as_slice()
    }

    // Puts a row behind the others; a full table stays as it is.
    pub fn push(&mut self, row: T) -> Result<(), Full>
        ensures fits { is_ok result ≡ nat_lt (length self.old.rows.items) MAX }
        ensures rows { OnOk result (self.new.rows.items ≡ self.old.rows.items ++ row ∷ []) }
        ensures kept { OnErr result (self.new ≡ self.old) }
    {
        if self.is_full() {
            return Err(Full);
        }
        self.rows.push_reserved(row);
        Ok(())
    }

    // Puts rows behind the others; a table without room for all of them stays as it is.
    pub fn extend(&mut self, more: &[T]) -> Result<(), Full>
        ensures fits { is_ok result ≡ nat_le (length self.old.rows.items + length more.now) MAX }
        ensures rows { OnOk result (self.new.rows.items ≡ self.old.rows.items ++ more.now) }
        ensures kept { OnErr result (self.new ≡ self.old) }
    {
        if !self.has_room(more.len()) {
            return Err(Full);
        }
        self.rows.extend_from_slice(more).unwrap();
        Ok(())
    }

    // A row, or another value where there is none of that number.
    pub fn get_or(&self, i: usize, other: T) -> T
        ensures { result ≡ slice_index_or self.now.rows.items i other }
    {
        self.rows.get(i).copied().unwrap_or(other)
    }

    // Writes over a row; nothing changes where there is none of that number.
    pub fn replace(&mut self, i: usize, row: T)
        ensures { self.new.rows.items ≡ slice_set self.old.rows.items i row }
    {
        if let Some(old) = self.rows.get_mut(i) {
            *old = row;
        }
    }

    pub fn clear(&mut self)
        ensures { self.new.rows.items ≡ [] }
    {
        self.rows.clear();
    }
}
