ghost use Rattle.std.specs.Prelude.{◌≡◌, ◌+◌, ◌<◌, ◌≤◌, [], ◌++◌, length, insert, max, All, OnOk};
ghost use Rattle.std.specs.Vec.{vec_len, vec_capacity};
ghost use Rattle.page_list.specs.Pages.{IsEmptyPage};

use std::alloc::{AllocError, Global};

/// The number of items that a page has room for.
pub(crate) const PAGE: usize = 256;

/// Inserts `item` into `page` at `index`.
pub(crate) fn insert_within<T>(page: &mut Vec<T>, index: usize, item: T)
    requires index { index ≤ vec_len page.old }
    requires room { vec_len page.old < vec_capacity page.old }
    ensures items { page.new.items ≡ insert page.old.items index item }
    ensures capacity { vec_capacity page.old ≤ vec_capacity page.new }
{
    match page.insert(index, item) {
        Ok(()) => {}
        Err(_) => unreachable!(),
    }
}

/// Moves the second half of `page` to `tail`, inserts `item` at `index` across both, and returns the length of `page`.
pub(crate) fn insert_halved<T: Copy>(
    page: &mut Vec<T>,
    tail: &mut Vec<T>,
    index: usize,
    item: T,
) -> usize
    requires full { length page.old.items ≡ PAGE }
    requires index { index ≤ PAGE }
    requires empty { tail.old.items ≡ [] }
    requires roomy { PAGE ≤ vec_capacity page.old }
    requires tail_roomy { PAGE ≤ vec_capacity tail.old }
    ensures items { page.new.items ++ tail.new.items ≡ insert page.old.items index item }
    ensures length { result ≡ length page.new.items }
    ensures bounded { length page.new.items ≤ PAGE }
    ensures tail_bounded { length tail.new.items ≤ PAGE }
    ensures capacity { PAGE ≤ vec_capacity page.new }
    ensures tail_capacity { PAGE ≤ vec_capacity tail.new }
{
    match tail.extend_from_slice(&page[PAGE / 2..]) {
        Ok(()) => {}
        Err(_) => unreachable!(),
    }
    page.truncate(PAGE / 2);
    if index <= PAGE / 2 {
        insert_within(page, index, item);
    } else {
        insert_within(tail, index - PAGE / 2, item);
    }
    page.len()
}

/// Adds empty pages, each with room for `PAGE` items, to `spare` until `spare` has at least `n` pages. If memory runs
/// out, returns an error and keeps the pages that were added.
pub(crate) fn fill<T: Copy>(
    spare: &mut Vec<Vec<T>>,
    alloc: Global,
    n: usize,
) -> Result<(), AllocError>
    requires { All IsEmptyPage spare.old.items }
    ensures all { All IsEmptyPage spare.new.items }
    ensures ok { OnOk result (n ≤ length spare.new.items) }
    ensures least { length spare.old.items ≤ length spare.new.items }
    ensures most { length spare.new.items ≤ max n (length spare.old.items) }
{
    while spare.len() < n {
        let page = Vec::with_capacity(alloc, PAGE)?;
        spare.push(page)?;
    }
    Ok(())
}
