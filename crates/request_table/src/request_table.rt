ghost use Rattle.std.specs.Prelude.{◌≡◌, ◌+◌, ◌<◌, ◌≤◌, ◌^◌, [], ◌∷◌, ◌++◌, OnOk, Some, length, nat_le, nat_lt};
ghost use Rattle.std.specs.Prelude.{option_copied, remove, slice_get, IsTrue, ◌↔◌};
ghost use Rattle.request_table.specs.Order.{IsIndex};
ghost use Rattle.request_table.specs.Numbers.{AreNumbered, IsIndexFor, with_number, without_number};

use crate::numbered::Numbered;
use std::alloc::{AllocError, Global};
use std::collections::VecDeque;
use std::marker::Model;

/// Requests in ascending order of their numbers. No number is given twice. Contracts see the requests, the number of
/// the next request, and for how many more requests memory is reserved.
#[derive(Drop)]
pub struct RequestTable<T: Numbered> {
    next: u64,
    requests: VecDeque<T>,
}

impl<T: Numbered> Model for RequestTable<T> {
    ghost use Rattle.std.specs.Prelude.{◌-◌};
    ghost use Rattle.std.specs.VecDeque.{deque_capacity, deque_len};
    ghost use Rattle.request_table.specs.Numbers.{AreNumbered, Table};

    ghost Value = { Table T };

    ghost view = { λ a. record {
      next = a.next;
      requests = a.requests.items;
      room = deque_capacity a.requests - deque_len a.requests;
    } };

    ghost invariant = { λ a. AreNumbered T.number a.requests.items a.next };
}

impl<T: Numbered + Drop> RequestTable<T> {
    /// Creates an empty table, whose first request will have the number `first`. Does not allocate.
    pub fn new(alloc: Global, first: u32) -> Self
        ensures next { result.next ≡ first }
        ensures requests { result.requests ≡ [] }
    {
        RequestTable {
            next: u64::from(first),
            requests: VecDeque::new(alloc),
        }
    }

    /// Returns the number of the next request, or 2^32 if no numbers are left.
    pub fn next(&self) -> u64
        ensures next { result ≡ self.now.next }
        ensures numbered { AreNumbered T.number self.now.requests self.now.next }
    {
        self.next
    }

    /// Returns the number of outstanding requests.
    pub fn len(&self) -> usize
        ensures count { result ≡ length self.now.requests }
        ensures numbered { AreNumbered T.number self.now.requests self.now.next }
    {
        self.requests.len()
    }

    /// Returns whether no request is outstanding.
    pub fn is_empty(&self) -> bool
        ensures { IsTrue result ↔ (self.now.requests ≡ []) }
    {
        self.requests.is_empty()
    }

    /// Returns whether numbers are left for `count` more requests.
    pub fn has_numbers(&self, count: usize) -> bool
        ensures enough { result ≡ nat_le (self.now.next + count) (2 ^ 32) }
        ensures numbered { AreNumbered T.number self.now.requests self.now.next }
    {
        count as u64 <= 0x1_0000_0000 - self.next
    }

    /// Reserves memory for `count` more requests. Returns an error if memory runs out. In either case the requests
    /// stay, and so does the memory that was already reserved.
    pub fn reserve(&mut self, count: usize) -> Result<(), AllocError>
        ensures next { self.new.next ≡ self.old.next }
        ensures requests { self.new.requests ≡ self.old.requests }
        ensures room { OnOk result (count ≤ self.new.room) }
        ensures kept { self.old.room ≤ self.new.room }
    {
        self.requests.reserve(count)
    }

    /// Adds `request`. The number of `request` must be the table's next number, and be less than 2^32. Memory for one
    /// more request must be reserved. Does not allocate.
    pub fn push(&mut self, request: T)
        requires room { 0 < self.old.room }
        requires number { T.number request ≡ self.old.next }
        requires spare { self.old.next < 2 ^ 32 }
        ensures next { self.new.next ≡ self.old.next + 1 }
        ensures requests { self.new.requests ≡ self.old.requests ++ request ∷ [] }
        ensures room { self.old.room ≤ self.new.room + 1 }
    {
        self.requests.push_back_reserved(request);
        self.next += 1;
    }

    /// Returns the request at `index`, in ascending order of numbers, or `None` if no request has this index.
    pub fn get(&self, index: usize) -> Option<&T>
        ensures { option_copied result ≡ slice_get self.now.requests index }
    {
        self.requests.get(index)
    }

    /// Returns the number of requests whose numbers are below `number`. If a request has the number `number`, this is
    /// its index. Does a binary search.
    pub fn count_below(&self, number: u64) -> usize
        ensures index { IsIndex (λ r. nat_lt (T.number r) number) self.now.requests result }
        ensures numbered { AreNumbered T.number self.now.requests self.now.next }
    {
        self.requests
            .partition_point(|request| u64::from(request.number()) < number)
    }

    /// Returns the index of the request with the number `number`, or `None` if no request has this number. Does a
    /// binary search.
    pub fn index_of(&self, number: u64) -> Option<usize>
        ensures { IsIndexFor (with_number T.number number self.now.requests)
            self.now.requests result }
    {
        let index = self.count_below(number);
        let request = self.get(index)?;
        if u64::from(request.number()) == number {
            Some(index)
        } else {
            None
        }
    }

    /// Removes the request at `index` and returns it. There must be a request at this index.
    pub fn end(&mut self, index: usize) -> T
        requires { index < length self.old.requests }
        ensures request { Some result ≡ slice_get self.old.requests index }
        ensures next { self.new.next ≡ self.old.next }
        ensures requests { self.new.requests
            ≡ without_number T.number (T.number result) self.old.requests }
        ensures moved { self.new.requests ≡ remove self.old.requests index }
        ensures numbered { AreNumbered T.number self.old.requests self.old.next }
        ensures room { self.old.room ≤ self.new.room }
    {
        self.requests.remove(index).unwrap()
    }
}
