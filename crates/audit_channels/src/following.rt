//! The channels that follow a channel.
ghost use Rattle.std.specs.Prelude.{◌≡◌, ◌==◌, [], ℕ, OnErr, OnOk, true};
ghost use Rattle.std.specs.List.{list_any};
ghost use Rattle.audit_channels.specs.ChannelSet.{Knows};
ghost use Rattle.audit_channels.specs.ChannelOrders.{AreWith};

use crate::channel_set::ChannelSet;
use std::alloc::{AllocError, Global};

/// A list of channels without duplicates, in the order in which they were added. `known` is a set of some of these
/// channels, which finds them in constant time.
#[derive(Drop)]
pub(crate) struct Following {
    channels: Vec<usize>,
    known: ChannelSet,
    ghost known_are_there: { (channel : ℕ) → Knows known channel → list_any (λ c. channel == c) channels.items ≡ true },
}

impl Following {
    /// Returns an empty list.
    pub(crate) fn new(alloc: Global) -> Self
        ensures { result.channels.items ≡ [] }
    {
        Following {
            channels: Vec::new(alloc),
            known: ChannelSet::none(),
        }
    }

    /// Returns the channels in the order in which they were added. Takes constant time.
    pub(crate) fn channels(&self) -> &[usize]
        ensures { result.now ≡ self.now.channels.items }
    {
        &self.channels
    }

    /// Adds `channel` unless the list has it, in constant time if it is known and else in time linear in the channels.
    pub(crate) fn add(&mut self, channel: usize) -> Result<(), AllocError>
        ensures added { OnOk result (AreWith self.old.channels.items channel self.new.channels.items) }
        ensures kept { OnErr result (self.new.channels.items ≡ self.old.channels.items) }
    {
        if self.known.has(channel) {
            return Ok(());
        }
        put(&mut self.channels, channel)?;
        self.known = self.known.with(channel);
        Ok(())
    }
}

/// Appends `channel` to `channels` unless `channels` have it already.
fn put(channels: &mut Vec<usize>, channel: usize) -> Result<(), AllocError>
    ensures added { OnOk result (AreWith channels.old.items channel channels.new.items) }
    ensures kept { OnErr result (channels.new.items ≡ channels.old.items) }
{
    if !is_among(channels, channel) {
        channels.push(channel)?;
    }
    Ok(())
}

/// Returns whether `channel` is one of `channels`.
fn is_among(channels: &[usize], channel: usize) -> bool
    ensures { result ≡ list_any (λ c. channel == c) channels.now }
{
    channels.iter().any(|c| channel == *c)
}
