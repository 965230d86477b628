//! Discovery of a subnet as a state machine: the caller asks it what to send, and passes in the replies. The state
//! machine does no input or output itself.
#![tactic(auto)]

mod answer;
mod discovered;
mod fact_sink;
mod fault;
mod finding;
mod images;
pub mod laws;
mod on_reply;
mod port_list;
mod question;
mod request;
mod sweep;
mod sweep_requests;
mod vertex;

pub use answer::Answer;
pub use fault::SweepFault;
pub use images::SeenImage;
pub use question::Question;
pub use request::Request;
pub use sweep::Sweep;
pub use sweep_requests::REQUESTS_PER_REPLY;
pub use vertex::{SeenState, Vertex};
