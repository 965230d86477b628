ghost use Rattle.std.specs.Prelude.{◌≡◌, ◌<◌, [], IfOk, OnOk, length, replicate, slice_index_or};
ghost use Rattle.audit_channels.specs.ChannelOrders.{IsWith, LeadToChannels};

use crate::following::Following;
use std::alloc::{AllocError, Global};
use std::marker::Model;

/// For each channel, the channels that follow it. A packet that holds a channel can wait for those that follow it.
/// Channels are numbered from 0.
#[derive(Drop)]
pub struct Waits {
    channels: Vec<Following>,
}

impl Model for Waits {
    ghost use Rattle.std.specs.Prelude.{List, ℕ, map};
    ghost use Rattle.audit_channels.specs.ChannelOrders.{LeadToChannels};

    ghost Value = { List (List ℕ) };

    ghost view = { λ a. map (λ x. x.channels.items) a.channels.items };

    ghost invariant = { λ a. LeadToChannels (map (λ x. x.channels.items) a.channels.items) };
}

impl Waits {
    /// Creates a list of `count` channels without any waits: no channel follows another.
    pub fn new(alloc: Global, count: usize) -> Result<Self, AllocError>
        ensures { IfOk result (λ waits. waits ≡ replicate count []) }
    {
        let mut channels = Vec::with_capacity(alloc, count)?;
        for _channel in 0..count {
            channels.push(Following::new(alloc))?;
        }
        Ok(Waits { channels })
    }

    /// Returns the number of channels.
    pub fn len(&self) -> usize
        ensures count { result ≡ length self.now }
        ensures channels { LeadToChannels self.now }
    {
        self.channels.len()
    }

    /// Returns the channels that follow `channel`, or an empty list if there is no such channel. Takes constant time.
    pub fn at(&self, channel: usize) -> &[usize]
        ensures { result.now ≡ slice_index_or self.now channel [] }
    {
        match self.channels.get(channel) {
            Some(following) => following.channels(),
            None => &[],
        }
    }

    /// Records that `next` follows `channel`. Both must be below the number of channels. Takes constant time if `next`
    /// is known to follow `channel`, and otherwise time linear in the number of channels that follow `channel`.
    pub fn add(&mut self, channel: usize, next: usize) -> Result<(), AllocError>
        requires channel { channel < length self.old }
        requires next { next < length self.old }
        ensures { OnOk result (IsWith self.old channel next self.new) }
    {
        self.channels[channel].add(next)?;
        Ok(())
    }
}
