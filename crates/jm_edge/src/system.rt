// A port over a UDP socket, and a clock over the system's. They tell nothing of content, since no contract can say what a
// network or a clock gives, and the port counts its faults.
ghost use Rattle.std.specs.Prelude.{◌≡◌, ◌≤◌, ◌^◌, None, IfOk};
ghost use Rattle.jm_edge.specs.Wire.{Wire};
ghost use Rattle.jm_edge.specs.Taken.{OnTaken};

use super::Addr;
use super::faults::count_fault;
use super::port::{Port, Recv, Sent};
use super::ticker::Ticker;
use mio::net::UdpSocket;
use mio::{Events, Interest, Poll, Token};
use std::alloc::Global;
use std::io::{self, ErrorKind};
use std::net::{Ipv4Addr, Net, SocketAddr};
use std::time::{Clock, Duration, SystemTime, UNIX_EPOCH};

/// How long a receive waits for a datagram, in milliseconds.
const PATIENCE: u64 = 10;

/// The latest moment that a clock tells.
const LAST_MOMENT: u64 = 1 << 62;

fn socket_addr(addr: Addr) -> SocketAddr {
    SocketAddr::from((Ipv4Addr::from_bits(addr.host), addr.port))
}

// The address of a socket that was bound to an IPv4 address.
fn addr_of(addr: SocketAddr) -> Option<Addr> {
    match addr {
        SocketAddr::V4(addr) => Some(Addr {
            host: addr.ip().to_bits(),
            port: addr.port(),
        }),
        SocketAddr::V6(_) => None,
    }
}

/// A port over a UDP socket. Each error of the socket is a fault, but for those that say that nothing is there yet.
#[derive(Drop)]
pub struct UdpPort {
    socket: UdpSocket,
    poll: Poll,
    events: Events<Global>,
    recv_faults: u64,
    send_faults: u64,
}

impl UdpPort {
    /// Opens a port at this address. With port 0 the system chooses one. Errors are those of the system.
    pub fn open(alloc: Global, net: &impl Net, addr: Addr) -> io::Result<UdpPort> {
        let mut socket = UdpSocket::bind(net, socket_addr(addr))?;
        let poll = Poll::new(net)?;
        poll.registry()
            .register(&mut socket, Token(0), Interest::READABLE)?;
        Ok(UdpPort {
            socket,
            poll,
            events: Events::with_capacity(alloc, 1)?,
            recv_faults: 0,
            send_faults: 0,
        })
    }

    /// The address that it has, `None` where the system doesn't tell.
    pub fn local(&self) -> Option<Addr> {
        match self.socket.local_addr() {
            Ok(addr) => addr_of(addr),
            Err(_) => None,
        }
    }

    // Takes a datagram that is there, if there is one.
    fn take(&self, buf: &mut [u8]) -> io::Result<Option<(usize, SocketAddr)>>
        ensures { IfOk result (OnTaken buf.new) }
    {
        match self.socket.recv_from(buf) {
            Ok(taken) => Ok(Some(taken)),
            Err(error) => match error.kind() {
                ErrorKind::WouldBlock => Ok(None),
                _ => Err(error),
            },
        }
    }

    // Waits for a datagram, not for long. A signal may end the waiting sooner.
    fn wait(&mut self) -> io::Result<()>
        ensures receives { self.new.recv_faults ≡ self.old.recv_faults }
        ensures sends { self.new.send_faults ≡ self.old.send_faults }
    {
        let patience = Duration::from_millis(PATIENCE);
        match self.poll.poll(&mut self.events, Some(patience)) {
            Ok(()) => Ok(()),
            Err(error) => match error.kind() {
                ErrorKind::Interrupted => Ok(()),
                _ => Err(error),
            },
        }
    }

    // Takes a datagram that is there or comes while it waits.
    fn receive(&mut self, buf: &mut [u8]) -> io::Result<Option<(usize, SocketAddr)>>
        ensures taken { IfOk result (OnTaken buf.new) }
        ensures receives { self.new.recv_faults ≡ self.old.recv_faults }
        ensures sends { self.new.send_faults ≡ self.old.send_faults }
    {
        match self.take(buf) {
            Ok(Some(taken)) => return Ok(Some(taken)),
            Ok(None) => {}
            Err(error) => return Err(error),
        }
        match self.wait() {
            Ok(()) => {}
            Err(error) => return Err(error),
        }
        self.take(buf)
    }
}

impl Port for UdpPort {
    ghost use Rattle.std.specs.Prelude.{None};

    ghost wire = { λ p. record { arriving = None; gone = None; recv_faults = p.recv_faults; send_faults = p.send_faults } };

    /// Waits at most ten milliseconds before it answers `Quiet`.
    fn recv(&mut self, buf: &mut [u8]) -> Recv {
        match self.receive(buf) {
            Ok(None) => Recv::Quiet,
            Ok(Some((len, sender))) => match addr_of(sender) {
                Some(from) => Recv::Got { len, from },
                None => {
                    count_fault(&mut self.recv_faults);
                    Recv::Failed
                }
            },
            Err(_) => {
                count_fault(&mut self.recv_faults);
                Recv::Failed
            }
        }
    }

    fn send(&mut self, to: Addr, octets: &[u8]) -> Sent {
        match self.socket.send_to(octets, socket_addr(to)) {
            Ok(count) if count == octets.len() => Sent::Gone,
            _ => {
                count_fault(&mut self.send_faults);
                Sent::Failed
            }
        }
    }
}

/// The system's clock. Its moments are counted from the start of 1970.
#[derive(Drop)]
pub struct WallTicker<R> {
    rt: R,
}

impl<R: Clock> WallTicker<R> {
    /// A clock that asks this runtime.
    pub fn new(rt: R) -> Self {
        WallTicker { rt }
    }
}

// The moment of a time, in units of 100 microseconds.
fn moment_of(time: SystemTime) -> u64
    ensures { result ≤ 2 ^ 62 }
{
    match time.duration_since(UNIX_EPOCH) {
        Ok(since) => match u64::try_from(since.as_micros() / 100) {
            Ok(moment) => moment.min(LAST_MOMENT),
            Err(_) => LAST_MOMENT,
        },
        Err(_) => 0,
    }
}

impl<R: Clock> Ticker for WallTicker<R> {
    ghost use Rattle.std.specs.Prelude.{None};

    ghost coming = { λ _. None };

    /// The moment is 0 where the clock can't be read.
    fn now(&mut self) -> u64 {
        match SystemTime::now(&self.rt) {
            Ok(time) => moment_of(time),
            Err(_) => 0,
        }
    }
}
