//! What servers listen at.

ghost use Rattle.std.specs.Prelude.{◌≡◌, ◌≢◌, ◌<◌, IfOk};

use std::io;
use std::net::{Ipv4Addr, Net, TcpListener, TcpStream};

/// The leave to load the feeds of a server's folders. Each listener has one, and only this module makes any.
#[derive(Drop)]
pub struct FolderLeave(());

/// What listens, at which port, and the leave of the server that it is for.
#[derive(Drop)]
pub struct BoundListener {
    pub listener: TcpListener,
    pub port: u16,
    pub leave: FolderLeave,
}

/// What listens at the port, if it is free; at any free one if the port is 0.
pub fn bound_at<H: Net<Listener = TcpListener, Stream = TcpStream>>(
    rt: &H,
    port: u16,
) -> io::Result<BoundListener>
    ensures at { port ≢ 0 → IfOk result (λ bound. bound.port ≡ port) }
    ensures small { IfOk result (λ bound. bound.port < 65_536) }
{
    let listener = TcpListener::bind(rt, (Ipv4Addr::LOCALHOST, port))?;
    let port = if port == 0 {
        listener.local_addr()?.port()
    } else {
        port
    };
    Ok(BoundListener {
        listener,
        port,
        leave: FolderLeave(()),
    })
}
