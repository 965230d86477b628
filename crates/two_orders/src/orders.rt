//! Two orders of vertices.
ghost use Rattle.std.specs.Prelude.{◌≡◌, IfOk};
ghost use Rattle.two_orders.specs.TwoOrders.{two_orders};

use crate::growth::positions_in;
use std::alloc::{AllocError, Global};
use std::marker::Model;

/// Two orders of vertices. They are stored as the position of each vertex in the first order and in the second, and as
/// the list of vertices in the second order.
#[derive(Drop)]
pub struct Orders {
    /// The position of each vertex in the first order.
    first: Vec<usize>,
    /// The position of each vertex in the second order.
    second: Vec<usize>,
    /// The vertices in the second order.
    rising: Vec<usize>,
    /// The vertices in the second order, the last one first.
    falling: Vec<usize>,
}

impl Model for Orders {
    ghost use Rattle.two_orders.specs.TwoOrders.{TwoOrders};

    ghost Value = { TwoOrders };

    ghost view = { λ a. record {
      first = a.first.items;
      second = a.second.items;
      rising = a.rising.items;
      falling = a.falling.items;
    } };
}

impl Orders {
    /// Returns the two orders of `count` vertices. `first` has the position of each vertex in the first order, and
    /// `rising` lists the vertices in the second. Returns an error if memory runs out.
    pub fn of(
        alloc: Global,
        first: Vec<usize>,
        rising: Vec<usize>,
        count: usize,
    ) -> Result<Self, AllocError>
        ensures { IfOk result (λ orders. orders ≡ two_orders first.items rising.items count) }
    {
        let second = positions_in(alloc, &rising, count)?;
        let mut falling = Vec::from_slice(alloc, &rising)?;
        falling.reverse();
        Ok(Orders {
            first,
            second,
            rising,
            falling,
        })
    }

    /// Returns the position of each vertex in the first order.
    pub fn first(&self) -> &[usize]
        ensures { result.now ≡ self.now.first }
    {
        &self.first
    }

    /// Returns the position of each vertex in the second order.
    pub fn second(&self) -> &[usize]
        ensures { result.now ≡ self.now.second }
    {
        &self.second
    }

    /// Returns the vertices in the second order.
    pub fn rising(&self) -> &[usize]
        ensures { result.now ≡ self.now.rising }
    {
        &self.rising
    }

    /// Returns the vertices in the second order, the last one first.
    pub fn falling(&self) -> &[usize]
        ensures { result.now ≡ self.now.falling }
    {
        &self.falling
    }

    /// Returns the position of each vertex in the first order, and frees the second order.
    pub fn into_first(self) -> Vec<usize>
        ensures { result.items ≡ self.first }
    {
        self.first
    }
}
