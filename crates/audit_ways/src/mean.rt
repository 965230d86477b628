//! The greatest of some numbers, and their mean.
ghost use Rattle.std.specs.Prelude.{◌≡◌, [], IfOk, OnOk};
ghost use Rattle.audit_ways.specs.Figures.{IsTotal, IsTotalWith, figures_by};

use std::alloc::AllocError;

/// The greatest of some numbers, and their mean.
#[derive(Clone, Copy, Debug, PartialEq, Eq)]
pub struct Figures {
    /// The greatest number.
    pub most: u64,
    /// A hundred times the mean, rounded down.
    pub hundredths: u64,
}

/// The count, the sum and the maximum of the numbers added so far.
#[derive(Clone, Copy)]
pub(crate) struct Total {
    pub(crate) count: u64,
    pub(crate) sum: u64,
    pub(crate) most: u64,
}

impl Total {
    /// Returns the total of no numbers.
    pub(crate) fn none() -> Self
        ensures { IsTotal [] result }
    {
        Total {
            count: 0,
            sum: 0,
            most: 0,
        }
    }

    /// Adds `number`, `times` times. Returns an error if the count, the sum or the product does not fit in 64 bits.
    pub(crate) fn add(&mut self, number: u64, times: u64) -> Result<(), AllocError>
        ensures { OnOk result (IsTotalWith self.old number times self.new) }
    {
        let more = number.checked_mul(times).ok_or(AllocError)?;
        self.count = self.count.checked_add(times).ok_or(AllocError)?;
        self.sum = self.sum.checked_add(more).ok_or(AllocError)?;
        self.most = self.most.max(number);
        Ok(())
    }

    /// Returns the greatest number and the mean, or `None` if there are no numbers. Returns an error if a hundred times
    /// the sum does not fit in 64 bits.
    pub(crate) fn figures(&self) -> Result<Option<Figures>, AllocError>
        ensures { IfOk result (λ figures. figures ≡ figures_by self.now.count self.now.sum self.now.most) }
    {
        if self.count == 0 {
            return Ok(None);
        }
        let hundred = self.sum.checked_mul(100).ok_or(AllocError)?;
        Ok(Some(Figures {
            most: self.most,
            hundredths: hundred / self.count,
        }))
    }
}
