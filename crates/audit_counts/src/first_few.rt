//! The number of items of a kind, and the first of these items, which are listed.
ghost use Rattle.std.specs.Prelude.{◌≡◌, [], IfOk, OnOk};
ghost use Rattle.audit_counts.specs.FirstFew.{all_listed, listed, more_of, first_few};

use std::alloc::{AllocError, Global};
use std::marker::Model;

/// The number of items of a kind, and the first of them.
#[derive(Drop)]
pub struct FirstFew<T> {
    /// The maximum number of items that are kept.
    most: usize,
    first: Vec<T>,
    count: u64,
}

impl<T> Model for FirstFew<T> {
    ghost use Rattle.audit_counts.specs.FirstFew.{Listed};

    ghost Value = { Listed T };

    ghost view = { λ a. record { most = a.most; first = a.first.items; count = a.count } };
}

impl<T: Drop> FirstFew<T> {
    /// Creates an empty list that keeps the first `most` items.
    pub fn new(alloc: Global, most: usize) -> Self
        ensures { result ≡ record { most = most; first = []; count = 0 } }
    {
        FirstFew {
            most,
            first: Vec::new(alloc),
            count: 0,
        }
    }

    /// Counts `item`, and keeps it if fewer items than the maximum are kept. Returns an error if the count does not
    /// fit in 64 bits, or if memory is refused.
    pub fn add(&mut self, item: T) -> Result<(), AllocError>
        ensures { OnOk result (self.new ≡ listed self.old item) }
    {
        self.count = self.count.checked_add(1).ok_or(AllocError)?;
        note(&mut self.first, self.most, item)
    }

    /// Returns the items that are kept: the first ones, and at most `most` of them, as given to `new` or `of`.
    pub fn first(&self) -> &[T]
        ensures { result.now ≡ self.now.first }
    {
        &self.first
    }

    /// Returns the number of all items, kept or not.
    pub fn count(&self) -> u64
        ensures { result ≡ self.now.count }
    {
        self.count
    }

    /// Returns the number of items that are not kept.
    pub fn more(&self) -> u64
        ensures { result ≡ more_of self.now }
    {
        self.count.saturating_sub(self.first.len() as u64)
    }
}

impl<T: Copy + Drop> FirstFew<T> {
    /// Counts all `items`, and keeps the first `most` of them.
    pub(crate) fn of(alloc: Global, most: usize, items: &[T]) -> Result<Self, AllocError>
        ensures { IfOk result (λ few. few ≡ all_listed most items.now) }
    {
        let told = items.len().min(most);
        let first = Vec::from_slice(alloc, &items[..told])?;
        let count = items.len() as u64;
        Ok(FirstFew { most, first, count })
    }
}

/// Appends `item` to `told` if `told` has fewer than `most` elements.
pub(crate) fn note<T: Drop>(told: &mut Vec<T>, most: usize, item: T) -> Result<(), AllocError>
    ensures { OnOk result (told.new.items ≡ first_few most told.old.items item) }
{
    if told.len() < most {
        told.push(item)?;
    }
    Ok(())
}
