//! The texts of DTDL v2's primitive schemas for dates, times and durations ("Primitive schemas"): RFC 3339, and the
//! durations of ISO 8601.
#![tactic(auto)]

mod calendar;
mod clock;
mod durations;
mod readers;

pub use calendar::has_day;
pub use clock::{is_date, is_date_time, is_time};
pub use durations::is_duration;
