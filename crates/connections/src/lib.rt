//! Where connections come from: doors, which wait for links, a harbor, which opens doors at a port, and a dial, which
//! makes a link to a server; the gate before each call on a shared object; and the forms of all these in memory, which tell
//! what they will give and what was handed back.
#![tactic(auto)]

mod dial;
mod door;
mod gate;
mod gone;
mod harbor;
mod mem_dial;
mod mem_door;
mod mem_harbor;
mod mem_link;

pub use dial::{Dial, DialEnd};
pub use door::Door;
pub use gate::{Gate, OpenGate};
pub use gone::Gone;
pub use harbor::{Harbor, HarborEnd};
pub use mem_dial::MemDial;
pub use mem_door::MemDoor;
pub use mem_harbor::MemHarbor;
pub use mem_link::MemLink;
