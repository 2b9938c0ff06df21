//! Up to 16 rows by value, in fixed memory.
#![tactic(auto)]

ghost use Rattle.std.specs.Prelude.{◌≡◌, ◌≤◌, length, ⊤};

use std::alloc::AllocError;

#[cfg(test)]
mod tests;

/// At most 16 rows, in order, held by value in fixed memory. A copy is equal to what is copied.
#[derive(Drop)]
pub struct Rows<T> {
    items: [T; 16],
    count: usize,
    ghost long: { length items ≡ 16 },
    ghost few: { count ≤ 16 },
}

impl<T: Copy> Rows<T> {
    ghost use Rattle.std.specs.Prelude.{take, drop, replicate, ◌++◌, ◌∷◌, []};
    ghost use Rattle.rows.specs.Held.{past, rows_of};

    /// No rows. `blank` stands in the memory for rows to come.
    pub fn new(blank: T) -> Rows<T>
        ensures rows { rows_of result ≡ [] }
        ensures rest { past result ≡ replicate 16 blank }
    {
        Rows {
            items: [blank; 16],
            count: 0,
        }
    }

    /// The rows, first to last: at most 16.
    pub fn as_slice(&self) -> &[T]
        ensures rows { result.now ≡ rows_of self.now }
        ensures few { length result.now ≤ 16 }
    {
        &self.items[..self.count]
    }

    /// One row more, after the last. Where 16 are held already, nothing changes.
    pub fn push(&mut self, row: T)
        ensures rows { rows_of self.new ≡ take 16 (rows_of self.old ++ row ∷ []) }
        ensures rest { past self.new ≡ drop 1 (past self.old) }
    {
        if self.count < 16 {
            self.items[self.count] = row;
            self.count += 1;
        }
    }
}

impl<T: Copy> Copy for Rows<T> {}

impl<T: Copy> Clone for Rows<T> {
    ghost is_clone = { λ one other. other ≡ one };

    ghost is_infallible = { λ _. ⊤ };

    fn clone(&self) -> Result<Self, AllocError> {
        Ok(*self)
    }
}
