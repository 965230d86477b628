//! What positions send.
use crate::level_digit::LevelDigit;
use port_graph::Adjacency;
use std::marker::Model;

/// A graph of positions, and what each position sends to each end.
#[derive(Drop)]
pub(crate) struct Traffic<'a> {
    pub(crate) graph: &'a Adjacency,
    /// The number of packets that each position sends to each end.
    pub(crate) sent: &'a [usize],
    /// The level and the digit weight of each position.
    pub(crate) digits: &'a [LevelDigit],
}

impl<'a> Model for Traffic<'a> {
    ghost use Rattle.balanced_choices.specs.Traffic.{IsTraffic, Sending};

    ghost Value = { Sending };

    ghost view = { λ a. record { edges = a.graph.now; sent = a.sent.now; digits = a.digits.now } };

    ghost invariant = { λ a. IsTraffic a.graph.now a.sent.now a.digits.now };
}
