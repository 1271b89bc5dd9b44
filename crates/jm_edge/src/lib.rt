//! The outside as the host sees it: where octets come from and where they go, each a trait whose contract
//! says what a call did to the octets that are left or were written. Forms over memory tell all of it and
//! fail at calls that their maker names, so a test drives a program through any sequence of faults. Adapters
//! over std's readers and writers tell nothing of content and count their faults.
//!
//! Nothing here knows a format or a protocol.
#![tactic(auto)]

mod adapters;
mod faults;
mod gate;
mod memory;
mod memory_port;
mod port;
mod sink;
mod source;
mod system;
mod ticker;

pub use adapters::{ReadSource, WriteSink};
pub use gate::{FreeGate, Gate};
pub use memory::{MemSink, MemSource};
pub use memory_port::{Datagram, MemPort};
pub use port::{LONGEST_DATAGRAM, Port, Recv, Sent};
pub use sink::{Put, Sink};
pub use source::{Got, Source};
pub use system::{UdpPort, WallTicker};
pub use ticker::{StepTicker, Ticker};

/// Where a datagram comes from or goes to.
#[derive(Clone, Copy, Debug, PartialEq, Eq, PartialOrd, Ord, Hash)]
pub struct Addr {
    /// The IPv4 address, its first octet the highest.
    pub host: u32,
    /// The UDP port.
    pub port: u16,
}
