ghost use Rattle.std.specs.Prelude.{◌≡◌, IfOk};
ghost use Rattle.lanes_file.specs.Lanes.{nothing_said};
ghost use Rattle.lanes_file.specs.LanesItem.{said_with};

use crate::lanes::{LaneMap, LevelBlock};
use crate::lanes_item::LanesItem;
use std::alloc::{AllocError, Global};
use std::marker::Model;

/// What the lines read so far say.
#[derive(Drop)]
pub(crate) struct LanesBuilder {
    pub(crate) lanes: Option<[u8; 16]>,
    pub(crate) maps: Vec<LaneMap>,
    pub(crate) level: Option<u8>,
    pub(crate) levels: Vec<LevelBlock>,
}

impl Model for LanesBuilder {
    ghost use Rattle.lanes_file.specs.Lanes.{LanesSaid, said_in};

    ghost Value = { LanesSaid };

    ghost view = { λ a. said_in a.lanes a.maps.items a.level a.levels.items };
}

impl LanesBuilder {
    /// Returns what is said before the first line: nothing.
    pub(crate) fn new(alloc: Global) -> Self
        ensures { result ≡ nothing_said }
    {
        LanesBuilder {
            lanes: None,
            maps: Vec::new(alloc),
            level: None,
            levels: Vec::new(alloc),
        }
    }

    /// Returns what is said after one more line, which says `item`. Returns an error if memory runs out.
    pub(crate) fn with(self, item: LanesItem) -> Result<Self, AllocError>
        ensures { IfOk result (λ said. said ≡ said_with self item) }
    {
        let LanesBuilder {
            mut lanes,
            mut maps,
            mut level,
            mut levels,
        } = self;
        match item {
            LanesItem::Nothing => {}
            LanesItem::Lanes(all) => lanes = Some(all),
            LanesItem::Map(map) => maps.push(map)?,
            LanesItem::Level(all) => level = Some(all),
            LanesItem::Block(block) => levels.push(block)?,
        }
        Ok(LanesBuilder {
            lanes,
            maps,
            level,
            levels,
        })
    }
}
