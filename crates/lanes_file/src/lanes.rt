//! What a text of lanes says.
ghost use Rattle.std.specs.Prelude.{◌≡◌, ◌<◌, ◌%◌, IfSome, IsTrue, find, option_copied, slice_index_or};
ghost use Rattle.std.specs.List.{list_all, list_any};
ghost use Rattle.lanes_file.specs.Carried.{CarriesAll, carries, carries_all, each_is_carried};
ghost use Rattle.lanes_file.specs.Lanes.{block_gives};
ghost use Rattle.lanes_file.specs.Carried.{has_lane, has_level_for_all, map_has_lane};
ghost use Rattle.lanes_file.specs.Lanes.{gives};
ghost use Rattle.lanes_file.specs.Lanes.{is_block, is_map, lane_of, lanes_between, level_by, level_of};
ghost use Rattle.lanes_file.specs.WellFormed.{AreLanes, HasLanes, IsWellFormed};

use crate::lanes_builder::LanesBuilder;
use smp_bytes::{Guid, Lid, PortNum};
use std::marker::Model;

/// The lane that packets have if the text gives them no lane.
const NO_LANE: u8 = 15;

/// The first number above all service levels.
const LEVEL_END: u8 = 16;

/// A row of a switch's SL-to-VL map: the lanes of packets that go from one port of the switch to another.
#[derive(Clone, Copy, Debug, PartialEq, Eq)]
pub struct LaneMap {
    pub node: Guid,
    /// The port by which packets come in, up to 254, or 0 for packets that the switch sends itself.
    pub into: PortNum,
    /// The outgoing port of packets, up to 254.
    pub out: PortNum,
    /// The lane of each service level. Lanes are up to 15.
    pub lanes: [u8; 16],
}

/// The service levels of packets that go from an end port to 64 LIDs.
#[derive(Clone, Copy, Debug, PartialEq, Eq)]
pub struct LevelBlock {
    pub node: Guid,
    /// The number of the end port, up to 254.
    pub port: PortNum,
    /// The number of the block, up to 767. The block has the levels of the 64 LIDs that start at 64 times this
    /// number.
    pub number: u16,
    /// The service level for each of the LIDs, up to 15, or 255 if the block gives the LID no level.
    pub levels: [u8; 64],
}

/// What a text of lanes says: the lanes of packets in each switch, and the service levels of packets.
#[derive(Drop)]
pub struct Lanes {
    lanes: Option<[u8; 16]>,
    maps: Vec<LaneMap>,
    level: Option<u8>,
    levels: Vec<LevelBlock>,
}

impl Model for Lanes {
    ghost use Rattle.lanes_file.specs.Lanes.{LanesSaid, said_in};
    ghost use Rattle.lanes_file.specs.WellFormed.{IsWellFormed};

    ghost Value = { LanesSaid };

    ghost view = { λ a. said_in a.lanes a.maps.items a.level a.levels.items };

    ghost invariant = { λ a. IsWellFormed (said_in a.lanes a.maps.items a.level a.levels.items) };
}

impl Lanes {
    /// Returns what the lines of a text say.
    pub(crate) fn of(said: LanesBuilder) -> Self
        requires { IsWellFormed said }
        ensures { result ≡ said }
    {
        let LanesBuilder {
            lanes,
            maps,
            level,
            levels,
        } = said;
        Lanes {
            lanes,
            maps,
            level,
            levels,
        }
    }

    /// Returns the lane of packets of service level `level` that come into the switch `node` by port `into` and leave
    /// by port `out`. Returns 15 if the text gives no lane. Does a binary search among the maps.
    pub fn lane(&self, node: Guid, into: PortNum, out: PortNum, level: u8) -> u8
        ensures is { result ≡ lane_of self.now node into out level }
        ensures within { result < 16 }
    {
        lane_at(self.lanes_between(node, into, out), level)
    }

    /// Returns the service level of packets from `port` of `node` to `lid`, or `None` if the text gives no level. Does
    /// a binary search among the blocks.
    pub fn level(&self, node: Guid, port: PortNum, lid: Lid) -> Option<u8>
        ensures is { result ≡ level_of self.now node port lid }
        ensures within { IfSome result (λ s. s < 16) }
    {
        self.level_by(self.block(node, port, lid.block()), lid)
    }

    /// Returns the service level of packets to `lid` from an end port. `block` is the end port's block that has this
    /// LID, or `None` if there is no such block. If no block gives the LID a level, returns the level of the `level`
    /// line, or `None` if there is no such line.
    pub fn level_by(&self, block: Option<&LevelBlock>, lid: Lid) -> Option<u8>
        ensures is { result ≡ level_by self.now.level (lid % 64) (option_copied block.entry) }
        ensures within { IfSome result (λ s. s < 16) }
    {
        let Some(block) = block else {
            return self.level;
        };
        let level = block.levels[lid.in_block()];
        if level < LEVEL_END {
            Some(level)
        } else {
            self.level
        }
    }

    /// Returns the levels of packets from `port` of `node` to the 64 LIDs that start at 64 times `number`, or `None`
    /// if the text has no such block. Does a binary search among the blocks.
    pub fn block(&self, node: Guid, port: PortNum, number: u16) -> Option<&LevelBlock>
        ensures { option_copied result ≡ find (is_block node port number) self.now.levels }
    {
        let index = self
            .levels
            .binary_search_by_key(&((node, port), number), |block| {
                ((block.node, block.port), block.number)
            })
            .ok()?;
        Some(&self.levels[index])
    }

    /// Returns whether each service level that the text gives to any packets has a lane below 15 in each map and in the
    /// `lanes` line. If so, each packet that has a service level has a lane below 15 in each switch. Takes time linear
    /// in the number of maps and of blocks.
    pub fn carries_all(&self) -> bool
        ensures is { result ≡ carries_all self.now }
        ensures carried { IsTrue result → CarriesAll self.now }
    {
        each_is_carried(
            self.lanes_without_map(),
            &self.maps,
            self.level,
            &self.levels,
        )
    }

    /// Returns whether there is a `level` line. If so, each packet has a service level.
    pub fn has_level_for_all(&self) -> bool
        ensures { result ≡ has_level_for_all self.now }
    {
        self.level.is_some()
    }

    /// Returns the lanes of packets from port `into` to port `out` of `node`, one for each service level, or none.
    fn lanes_between(&self, node: Guid, into: PortNum, out: PortNum) -> &[u8]
        ensures is { result.now ≡ lanes_between self.now node into out }
        ensures lanes { AreLanes result.now }
    {
        match self.map(node, into, out) {
            Some(map) => &map.lanes,
            None => self.lanes_without_map(),
        }
    }

    /// Returns the lanes of packets for which there is no map, one for each service level, or none.
    fn lanes_without_map(&self) -> &[u8]
        ensures is { result.now ≡ self.now.lanes }
        ensures lanes { AreLanes result.now }
    {
        match &self.lanes {
            Some(lanes) => lanes,
            None => &[],
        }
    }

    /// Returns the map for packets from port `into` to port `out` of `node`. Does a binary search among the maps.
    fn map(&self, node: Guid, into: PortNum, out: PortNum) -> Option<&LaneMap>
        ensures is { option_copied result ≡ find (is_map node into out) self.now.maps }
        ensures lanes { IfSome result (λ map. HasLanes map.now) }
    {
        let index = self
            .maps
            .binary_search_by_key(&((node, into), out), |map| ((map.node, map.into), map.out))
            .ok()?;
        Some(&self.maps[index])
    }
}

/// Returns the lane of service level `level` in `lanes`, or 15 if `lanes` is too short.
fn lane_at(lanes: &[u8], level: u8) -> u8
    ensures is { result ≡ slice_index_or lanes.now level 15 }
    ensures within { AreLanes lanes.now → result < 16 }
{
    match lanes.get(usize::from(level)) {
        Some(lane) => *lane,
        None => NO_LANE,
    }
}

/// Returns whether each service level that any packets have gets a lane below 15 in each of `maps` and in `lanes`.
fn each_is_carried(lanes: &[u8], maps: &[LaneMap], own: Option<u8>, blocks: &[LevelBlock]) -> bool
    ensures { result ≡ each_is_carried lanes.now maps.now own blocks.now }
{
    (0..LEVEL_END).all(|level| carries(lanes, maps, level) || !gives(own, blocks, level))
}

/// Returns whether the lane of service level `level` is below 15 in each of `maps` and in `lanes`.
fn carries(lanes: &[u8], maps: &[LaneMap], level: u8) -> bool
    ensures { result ≡ carries lanes.now maps.now level }
{
    has_lane(lanes, level) && each_has_lane(maps, level)
}

/// Returns whether the lane of service level `level` is below 15 in each of `maps`.
fn each_has_lane(maps: &[LaneMap], level: u8) -> bool
    ensures { result ≡ list_all (map_has_lane level) maps.now }
{
    maps.iter().all(|map| has_lane(&map.lanes, level))
}

/// Returns whether packets have service level `level`: it is `own`, the level without a block, or a block gives it.
fn gives(own: Option<u8>, blocks: &[LevelBlock], level: u8) -> bool
    ensures { result ≡ gives own blocks.now level }
{
    own == Some(level) || any_gives(blocks, level)
}

/// Returns whether one of `blocks` gives service level `level` to a LID.
fn any_gives(blocks: &[LevelBlock], level: u8) -> bool
    ensures { result ≡ list_any (block_gives level) blocks.now }
{
    blocks.iter().any(|block| block_gives(block, level))
}

/// Returns whether the lane of service level `level` in `lanes` is below 15.
fn has_lane(lanes: &[u8], level: u8) -> bool
    ensures { result ≡ has_lane level lanes.now }
{
    lane_at(lanes, level) < NO_LANE
}

/// Returns whether `block` gives service level `level` to a LID.
fn block_gives(block: &LevelBlock, level: u8) -> bool
    ensures { result ≡ block_gives level block.now }
{
    (0..64).any(|index| block.levels[index] == level)
}
