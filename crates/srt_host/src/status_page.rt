//! The sockets of the status page. Requests are parsed, and responses made, by `srt_status`.

ghost use Rattle.std.specs.Prelude.{◌≡◌, ◌∷◌, IfOk, OnOk};
ghost use Rattle.std.specs.declared.net.socket_addr.SocketAddr.{SocketAddr as TheAddress};
ghost use Rattle.srt_host.specs.Addresses.{IsAddressOf};
ghost use Rattle.srt_host.specs.Pages.{listen_note};

use crate::address::socket_address;
use srt_config::BindAddress;
use srt_procfs::Journal;
use srt_status::{
    Connection, EventRing, GatewayStatus, OVERVIEW, RouteStatus, request_in, respond,
};
use srt_types::product_limits::MAX_CONNECTIONS;
use srt_watch::StatusServer;
use std::alloc::{AllocError, Global};
use std::io::{self, ErrorKind, Read, Write};
use std::net::{SocketAddr, TcpListener, TcpStream};

/// The most connections that are accepted in one call.
const MAX_ACCEPTS: u32 = 64;

/// The most bytes that are read from a connection in one call.
const MAX_READ: usize = 4096;

/// The most writes to a connection in one call, each of what the socket takes at once.
const MAX_WRITES: u32 = 16;

/// A connection and its socket.
#[derive(Drop)]
struct Client {
    stream: TcpStream,
    connection: Connection,
    // nothing more can be read from the socket, or written to it
    is_read: bool,
    is_lost: bool,
}

impl Client {
    // Reads what has come, without waiting.
    fn read(&mut self) {
        if self.is_read || self.connection.is_answered() {
            return;
        }
        let mut bytes = [0; MAX_READ];
        match self.stream.read(&mut bytes) {
            Ok(0) => self.is_read = true,
            Ok(len) => self.is_lost |= self.connection.receive(&bytes[..len]).is_err(),
            Err(error) => self.is_lost |= error.kind() != ErrorKind::WouldBlock,
        }
    }

    // Makes the answer, if the request is there. Whether it did. If memory is refused, the connection is lost.
    fn answer(
        &mut self,
        alloc: Global,
        gateway: &GatewayStatus<'_>,
        routes: &[RouteStatus],
        events: &EventRing,
    ) -> bool {
        if self.connection.is_answered() {
            return false;
        }
        let Some(request) = request_in(self.connection.received()) else {
            self.is_lost |= self.is_read;
            return false;
        };
        match respond(alloc, request, OVERVIEW.as_bytes(), gateway, routes, events) {
            Ok(response) => self.connection.answer(gateway.moment, response),
            Err(_) => self.is_lost = true,
        }
        true
    }

    // Writes what the socket takes without waiting.
    fn write(&mut self) {
        for _ in 0..MAX_WRITES {
            let left = self.connection.left();
            if left.is_empty() {
                return;
            }
            match self.stream.write(left) {
                Ok(0) => {
                    self.is_lost = true;
                    return;
                }
                Ok(count) => self.connection.sent(count),
                Err(error) => {
                    self.is_lost |= error.kind() != ErrorKind::WouldBlock;
                    return;
                }
            }
        }
    }

    fn is_over(&self, moment: u64) -> bool {
        self.is_lost || self.connection.is_over(moment)
    }
}

/// The status page at its address. Without an address it accepts no connection.
#[derive(Drop)]
pub struct StatusPage {
    alloc: Global,
    listener: Option<TcpListener>,
    clients: Vec<Client>,
    // for contracts alone
    journal: Journal,
}

/// Notes that a socket was bound at this address.
fn note_bound(journal: &mut Journal, address: SocketAddr)
    ensures { journal.new.notes ≡ listen_note address ∷ journal.old.notes }
{
    match address {
        SocketAddr::V4(it) => journal.note(&[u64::from(it.port())], &it.ip().octets(), &[]),
        SocketAddr::V6(it) => journal.note(&[u64::from(it.port())], &it.ip().octets(), &[]),
    }
}

/// Binds a listener at an address. Nothing else binds one.
fn bind_listener(
    journal: &mut Journal,
    machine: &HostRuntime,
    address: SocketAddr,
) -> io::Result<TcpListener>
    ensures { OnOk result (journal.new.notes ≡ listen_note address ∷ journal.old.notes) }
{
    let listener = TcpListener::bind(machine, address)?;
    note_bound(journal, address);
    Ok(listener)
}

/// Returns a non-blocking listener at an address of the configuration.
fn listen(
    journal: &mut Journal,
    machine: &HostRuntime,
    address: BindAddress,
) -> io::Result<TcpListener>
    ensures { OnOk result ((a : TheAddress) × IsAddressOf address a × (journal.new.notes ≡ listen_note a ∷ journal.old.notes)) }
{
    let listener = bind_listener(journal, machine, socket_address(address))?;
    listener.set_nonblocking(true)?;
    Ok(listener)
}

impl StatusPage {
    ghost use Rattle.srt_host.specs.Pages.{IsPageAt};

    /// Binds the page's address, if there is one. Allocates room for 16 connections; a response is allocated when it is
    /// made, and freed once it was sent. An error is that of the socket; refused memory is one of kind `OutOfMemory`.
    pub fn bind(
        machine: &HostRuntime,
        alloc: Global,
        address: Option<BindAddress>,
    ) -> io::Result<StatusPage>
        ensures { IfOk result (λ page. IsPageAt address page) }
    {
        let clients = Vec::with_capacity(alloc, MAX_CONNECTIONS)?;
        let mut journal = Journal::new();
        let listener = match address {
            Some(address) => Some(listen(&mut journal, machine, address)?),
            None => None,
        };
        Ok(StatusPage {
            alloc,
            listener,
            clients,
            journal,
        })
    }

    // Accepts one connection, if one waits. Whether there was one.
    fn accept_one(&mut self, moment: u64) -> bool {
        let Some(listener) = &self.listener else {
            return false;
        };
        let Ok((stream, _)) = listener.accept() else {
            return false;
        };
        if self.clients.len() < MAX_CONNECTIONS && stream.set_nonblocking(true).is_ok() {
            let connection = Connection::new(self.alloc, moment);
            let _ = self.clients.push(Client {
                stream,
                connection,
                is_read: false,
                is_lost: false,
            });
        }
        true
    }

    // Closes the connections that are over.
    fn close(&mut self, moment: u64) {
        for _ in 0..MAX_CONNECTIONS {
            let over = self.clients.iter().position(|it| it.is_over(moment));
            let Some(index) = over else {
                return;
            };
            let _ = self.clients.swap_remove(index);
        }
    }
}

impl StatusServer for StatusPage {
    fn is_awaited(&self) -> bool {
        !self.clients.is_empty()
    }

    // At most one response is made in a call, so that a call lasts some milliseconds.
    fn serve(&mut self, gateway: &GatewayStatus<'_>, routes: &[RouteStatus], events: &EventRing) {
        for _ in 0..MAX_ACCEPTS {
            if !self.accept_one(gateway.moment) {
                break;
            }
        }
        let mut is_made = false;
        for client in self.clients.iter_mut() {
            client.read();
            if !is_made {
                is_made = client.answer(self.alloc, gateway, routes, events);
            }
            client.write();
        }
        self.close(gateway.moment);
    }
}
