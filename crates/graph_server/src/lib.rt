//! Who answers the requests of a session: the routes make an ask of a request, and the graph answers it.
#![tactic(auto)]

mod answers;
mod counts;
mod desk;
mod laws;
mod links;
mod replayer;
mod replays;
mod works;

pub use counts::Work;
pub use laws::{histories_are_typed, one_answer, one_replay};
pub use links::serve_link;
pub use replayer::Replayer;
pub use replays::replay;
pub use works::work;
