//! Addresses of this machine.

ghost use Rattle.std.specs.Prelude.{◌≡◌, ◌⊎◌, None, IfSome};
ghost use Rattle.std.specs.Net.Socket.{socket_ip};
ghost use Rattle.web_requests.specs.Machine.{IsLoopback, AreLocal, IsLocalV4, IsLocalV6};

use std::marker::Model;
use std::net::{IpAddr, Ipv4Addr, Ipv6Addr, SocketAddr};

/// An address that only this machine reaches.
#[derive(Clone, Copy)]
pub struct Loopback {
    address: SocketAddr,
}

impl Model for Loopback {
    ghost use Rattle.std.specs.declared.net.socket_addr.SocketAddr.{SocketAddr};
    ghost use Rattle.web_requests.specs.Machine.{IsLoopback};

    ghost Value = { SocketAddr };

    ghost view = { λ l. l.address };

    ghost invariant = { λ l. IsLoopback l.address };

    ghost inverse = { λ a. record { address = a } };
}

impl Loopback {
    /// None if other machines may reach it.
    pub fn of(address: SocketAddr) -> Option<Loopback>
        ensures some { IfSome result (λ it. it ≡ address) }
        ensures none { result ≡ None → IsLoopback address → ⊥ }
    {
        if address.ip().is_loopback() {
            Some(Loopback { address })
        } else {
            None
        }
    }

    pub fn address(self) -> SocketAddr
        ensures value { result ≡ self }
        ensures local { IsLoopback result }
    {
        self.address
    }

    /// The other address at which a browser may look for localhost.
    pub fn other(self) -> Option<Loopback>
        ensures some { IfSome result (AreLocal self) }
        ensures none { result ≡ None → IsLocalV4 (socket_ip self) ⊎ IsLocalV6 (socket_ip self) → ⊥ }
    {
        let port = self.address.port();
        if self.address.ip() == IpAddr::V4(Ipv4Addr::LOCALHOST) {
            Loopback::of(SocketAddr::new(IpAddr::V6(Ipv6Addr::LOCALHOST), port))
        } else if self.address.ip() == IpAddr::V6(Ipv6Addr::LOCALHOST) {
            Loopback::of(SocketAddr::new(IpAddr::V4(Ipv4Addr::LOCALHOST), port))
        } else {
            None
        }
    }
}
