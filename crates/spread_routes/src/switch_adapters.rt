ghost use Rattle.std.specs.Prelude.{◌≡◌, length};

use subnet_view::SwitchGraph;

/// The graph of usable switches, with the number of adapters at each.
#[derive(Clone, Copy)]
pub struct SwitchAdapters<'g> {
    pub graph: &'g SwitchGraph,
    /// The number of adapters at each switch, in ascending order of GUID.
    pub adapters: &'g [u16],
    pub ghost have_adapters: { length adapters.now ≡ length graph.now },
}
