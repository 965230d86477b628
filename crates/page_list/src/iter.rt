ghost use Rattle.std.specs.Iterator.{YieldsFirst, item_count};
ghost use Rattle.page_list.specs.Pages.{items_of};
ghost use Rattle.page_list.specs.Iter.{rest_of};

/// An iterator over the items of a list, from the first to the last.
#[derive(Drop)]
pub struct Iter<'a, T> {
    /// The remaining items of the current page.
    pub(crate) page: &'a [T],
    /// The pages after the current page.
    pub(crate) later: &'a [Vec<T>],
}

impl<T: Copy> Iterator for Iter<'_, T> {
    type Item = T;

    ghost next_gives = { YieldsFirst rest_of };

    ghost remaining = { item_count rest_of };

    fn next(&mut self) -> Option<T> {
        while self.page.is_empty() {
            let (page, later) = self.later.split_first()?;
            self.page = page.as_slice();
            self.later = later;
        }
        let (first, others) = self.page.split_first()?;
        self.page = others;
        Some(*first)
    }
}
