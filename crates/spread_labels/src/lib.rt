//! Routes by labels. In rounds from the target, vertices get labels, each at a cost. The edges that give a vertex its
//! label are the candidates of the vertex.
#![tactic(auto)]

mod candidate_lists;
mod candidate_sets;
mod distance_class;
mod growth;
mod growth_keys;
mod key_order;
mod label;
pub mod laws;
mod leaves;
mod level;
mod mark_sets;
mod target_set;
mod vertex_positions;

pub use candidate_lists::CandidateLists;
pub use candidate_sets::CandidateSets;
pub use distance_class::{Grades, grade};
pub use growth::grown_order;
pub use growth_keys::keys;
pub use key_order::{VertexKey, is_before};
pub use label::{Label, Mark};
pub use leaves::leaf_vertices;
pub use level::{digit_weights, greatest_of};
pub use target_set::{TARGETS, TargetSet};
pub use vertex_positions::{by_positions, counts_at, position_of, positions, positions_at};
