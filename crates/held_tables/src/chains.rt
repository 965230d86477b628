//! Chains of equal numbers in a list: for each index, the index of the next occurrence of the number at this index.
ghost use Rattle.std.specs.Prelude.{◌≡◌, ◌<◌, ◌+◌, IfOk, length, replicate, slice_index_or};
ghost use Rattle.held_tables.specs.Chains.{AreChains, IsNext};

use std::alloc::{AllocError, Global};

/// The chains of a list of numbers: the index of each number's first occurrence, and of each item's next one.
#[derive(Drop)]
pub struct Chains {
    /// For each number, the index of its first occurrence, or the length of the list if it does not occur.
    pub firsts: Vec<usize>,
    /// For each index, the index of the next occurrence of the number at this index, or the length of the list if
    /// there is none.
    pub nexts: Vec<usize>,
}

/// The number of values of a `u16`.
const NUMBERS: usize = 0x1_0000;

/// Returns the chains of `numbers`, in time linear in their length, plus 65,536 for the values of a `u16`.
pub(crate) fn chains_of(alloc: Global, numbers: &[u16]) -> Result<Chains, AllocError>
    ensures { IfOk result (λ chains. AreChains numbers.now chains) }
{
    let mut firsts = so_many(alloc, NUMBERS, numbers.len())?;
    let mut nexts = so_many(alloc, numbers.len(), 0)?;
    let mut index = numbers.len();
    while index > 0 {
        index -= 1;
        let number = usize::from(numbers[index]);
        nexts[index] = firsts[number];
        firsts[number] = index;
    }
    Ok(Chains { firsts, nexts })
}

/// Returns a list of `count` copies of `index`.
fn so_many(alloc: Global, count: usize, index: usize) -> Result<Vec<usize>, AllocError>
    ensures { IfOk result (λ indices. indices.items ≡ replicate count index) }
{
    vec![in alloc; index; count]
}

impl Chains {
    /// Returns the item of `firsts` for `number`, or 0 if `firsts` has no such item.
    pub(crate) fn first(&self, number: u16) -> usize
        ensures { result ≡ slice_index_or self.now.firsts.items number 0 }
    {
        match self.firsts.get(usize::from(number)) {
            Some(index) => *index,
            None => 0,
        }
    }

    /// Returns the item of `nexts` at `index`, or 0 if `nexts` has no such item.
    pub(crate) fn next(&self, index: usize) -> usize
        ensures { result ≡ slice_index_or self.now.nexts.items index 0 }
    {
        match self.nexts.get(index) {
            Some(next) => *next,
            None => 0,
        }
    }
}
