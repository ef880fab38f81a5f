//! The commands of `dtdl`, over the traits of the outside, and the graph of so many rooms that `make` counts (`making`).
#![tactic(auto)]

mod answers;
mod client;
mod clients;
mod command;
mod complete;
mod inputs;
mod laws;
mod makes;
pub mod making;
mod replays;
mod run;
mod status;

pub use clients::run_ask;
pub use complete::{
    ask_answered, canon_prints, check_accepts, documents_answered, faults_refused, long_refused,
    long_text_refused, make_counts, missing_refused, replay_answered, some_answer, usage_told,
};
pub use laws::{
    declared_set, equal_texts, make_ends, one_answer, one_input, one_make, one_replay,
    prints_itself,
};
pub use run::run_plain;
pub use status::Status;
