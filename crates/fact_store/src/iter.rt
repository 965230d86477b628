ghost use Rattle.std.specs.Prelude.{◌≡◌};
ghost use Rattle.std.specs.FinMap.{entries};
ghost use Rattle.std.specs.Iterator.{YieldsFirst, item_count};
ghost use Rattle.fact_store.specs.View.{AreInRange};
ghost use Rattle.fact_store.specs.Iter.{cells_left};

use page_list::Iter;
use reply_facts::Sighting;

/// An iterator over the cells of a store with their keys, in the order of keys.
#[derive(Drop)]
pub struct Cells<'a> {
    pub(crate) cells: Iter<'a, Sighting>,
}

impl Iterator for Cells<'_> {
    type Item = Sighting;

    ghost next_gives = { YieldsFirst cells_left };

    ghost remaining = { item_count cells_left };

    fn next(&mut self) -> Option<Sighting> {
        self.cells.next()
    }
}
