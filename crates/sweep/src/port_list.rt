//! Lists of items about ports, in ascending order of GUID and port.
ghost use Rattle.std.specs.Prelude.{◌≡◌, ℕ, ◌<◌};
ghost use Rattle.sweep.specs.Order.{AreInOrder, IsIndexFor, found_at, has_key, is_before, passes_at, placed};

use page_list::PageList;
use smp_bytes::{Guid, PortNum};

/// An item about a port.
pub(crate) trait OfPort: Copy {
    ghost key: { Self → ℕ × ℕ };

    /// Returns the GUID of the node and the number of the port.
    fn key(&self) -> (Guid, PortNum)
        ensures { result ≡ key self.now };
}

/// Returns whether `a` comes before `b`: its GUID is less, or the GUIDs are equal and its port is less.
pub(crate) fn is_before(a: (Guid, PortNum), b: (Guid, PortNum)) -> bool
    ensures { result ≡ is_before a b }
{
    a.0 < b.0 || a.0 == b.0 && a.1 < b.1
}

/// Returns the index of the item with `guid` and `port`, or where it would be inserted. Does a binary search.
fn index_for<T: OfPort>(items: &PageList<T>, guid: Guid, port: PortNum) -> usize
    requires { AreInOrder T.key items.now.items }
    ensures { IsIndexFor T.key (guid, port) items.now.items result }
{
    let mut low = 0;
    let mut high = items.len();
    while low < high {
        let middle = low + (high - low) / 2;
        let item = items.get(middle).unwrap();
        if is_before(item.key(), (guid, port)) {
            low = middle + 1;
        } else {
            high = middle;
        }
    }
    low
}

/// Returns whether there is an item at `index`, and it has `guid` and `port`.
fn is_at<T: OfPort>(items: &PageList<T>, index: usize, guid: Guid, port: PortNum) -> bool
    ensures { result ≡ passes_at (has_key T.key guid port) items.now.items index }
{
    match items.get(index) {
        Some(item) => {
            let key = item.key();
            key.0 == guid && key.1 == port
        }
        None => false,
    }
}

/// Returns the item with `guid` and `port`, or `None` if there is none. Does a binary search.
pub(crate) fn item_at<T: OfPort>(items: &PageList<T>, guid: Guid, port: PortNum) -> Option<T>
    requires { AreInOrder T.key items.now.items }
    ensures { result ≡ found_at T.key guid port items.now.items }
{
    let index = index_for(items, guid, port);
    if is_at(items, index, guid, port) {
        items.get(index)
    } else {
        None
    }
}

/// Inserts `item` in its order, unless there is one with the same GUID and port already. Moves at most a page of items.
pub(crate) fn put<T: OfPort>(items: &mut PageList<T>, item: T)
    requires order { AreInOrder T.key items.old.items }
    requires room { 0 < items.old.room }
    ensures { items.new.items ≡ placed T.key item items.old.items }
{
    let (guid, port) = item.key();
    let index = index_for(items, guid, port);
    if !is_at(items, index, guid, port) {
        items.insert(index, item);
    }
}
