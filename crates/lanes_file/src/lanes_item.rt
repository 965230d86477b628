use crate::lanes::{LaneMap, LevelBlock};

/// What a line of a text of lanes says.
#[derive(Clone, Copy)]
pub(crate) enum LanesItem {
    Nothing,
    /// The lanes of all packets that have no map.
    Lanes([u8; 16]),
    Map(LaneMap),
    /// The level, up to 15, of all packets that get none from a block.
    Level(u8),
    Block(LevelBlock),
}
