//! Links, doors, harbors and dials over the system's TCP sockets. They tell no content: what a network holds no contract can
//! say. Each counts its failures.
#![tactic(auto)]

mod tcp_dial;
mod tcp_door;
mod tcp_harbor;
mod tcp_link;
mod wire;

pub use tcp_dial::TcpDial;
pub use tcp_door::TcpDoor;
pub use tcp_harbor::TcpHarbor;
pub use tcp_link::TcpLink;
