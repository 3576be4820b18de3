//! A desk at which workers take items, each with a link of its own, and a door that listens for connections.
#![tactic(auto)]

mod asking;
mod counter;
mod desk;
mod listening;
mod name;
mod numbered;
mod share;
mod stand;
mod tcp_door;
mod tcp_link;

pub use desk::Desk;
pub use listening::{Accept, Listen};
pub use name::DeskName;
pub use numbered::Numbered;
pub use share::DeskShare;
pub use stand::DoorStand;
pub use tcp_door::TcpDoor;
pub use tcp_link::{TcpLink, TcpRest};
