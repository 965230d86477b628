ghost use Rattle.std.specs.Prelude.{◌≡◌, OnOk, OnErr};
ghost use Rattle.reply_facts.specs.Report.{Sightings};

use fact_store::{Refused, Sighting, Store};

/// A destination for the facts in replies.
pub(crate) trait Keeper {
    /// The keeper with `sightings` added.
    ghost kept: { Self → Sightings → Self };

    /// Adds all of `sightings`, or none of them if an error is returned.
    fn keep(&mut self, sightings: &[Sighting]) -> Result<(), Refused>
        ensures ok { OnOk result (self.new ≡ kept self.old sightings.now) }
        ensures err { OnErr result (self.new ≡ self.old) };
}

impl Keeper for Store {
    ghost use Rattle.fact_store.specs.Merge.{merge};
    ghost use Rattle.fact_store.specs.View.{view};

    ghost kept = { λ facts sightings. merge facts (view sightings) };

    fn keep(&mut self, sightings: &[Sighting]) -> Result<(), Refused> {
        self.add_all(sightings)
    }
}

/// A destination that drops all facts.
#[derive(Drop)]
pub(crate) struct Nowhere;

impl Keeper for Nowhere {
    ghost kept = { λ nowhere sightings. nowhere };

    fn keep(&mut self, _: &[Sighting]) -> Result<(), Refused> {
        Ok(())
    }
}
