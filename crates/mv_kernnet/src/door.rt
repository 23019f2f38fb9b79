//! An address at which connections arrive.

use mv_calls::Bytes;
use std::io;
use std::net::{Net, OpenListener, OpenStream, TcpListener};

/// What a look for a new connection found.
#[derive(Drop)]
pub(crate) enum Arrival<S: Drop> {
    /// This connection, whose calls don't wait.
    Came(S),
    /// None that is waiting.
    Nobody,
    /// An error of the listener, or of a connection that was lost as it came.
    Broken,
}

/// A listener that binds its address when it is first asked, and never waits.
#[derive(Drop)]
pub(crate) struct Door<'a, R: Net> {
    net: &'a R,
    address: Bytes,
    listener: Option<R::Listener>,
    /// A connection that was seen and not taken yet.
    seen: Option<R::Stream>,
}

impl<'a, R: Net> Door<'a, R> {
    /// A door at this address, `HOST:PORT`. It isn't bound yet.
    pub(crate) fn new(net: &'a R, address: Bytes) -> Door<'a, R> {
        Door {
            net,
            address,
            listener: None,
            seen: None,
        }
    }

    /// Binds the address, where that wasn't done. Where it fails, the next call tries again.
    pub(crate) fn open(&mut self) -> io::Result<()> {
        if self.listener.is_none() {
            self.listener = Some(bind(self.net, self.address.slice())?);
        }
        Ok(())
    }

    /// The next connection, whoever was seen first. The one error is that the address can't be bound.
    pub(crate) fn take(&mut self) -> io::Result<Arrival<R::Stream>> {
        self.open()?;
        match self.seen.take() {
            Some(stream) => Ok(Arrival::Came(stream)),
            None => Ok(self.accept()),
        }
    }

    /// Whether a connection waits. It is kept for the next `take`. The one error is that the address
    /// can't be bound.
    pub(crate) fn look(&mut self) -> io::Result<Arrival<()>> {
        match self.take()? {
            Arrival::Came(stream) => {
                self.seen = Some(stream);
                Ok(Arrival::Came(()))
            }
            Arrival::Nobody => Ok(Arrival::Nobody),
            Arrival::Broken => Ok(Arrival::Broken),
        }
    }

    /// What the listener has now.
    fn accept(&self) -> Arrival<R::Stream> {
        let Some(listener) = &self.listener else {
            return Arrival::Nobody;
        };
        match listener.accept() {
            Ok((stream, _peer)) => match stream.set_nonblocking(true) {
                Ok(()) => Arrival::Came(stream),
                Err(_) => Arrival::Broken,
            },
            Err(error) => match error.kind() {
                io::ErrorKind::WouldBlock => Arrival::Nobody,
                _ => Arrival::Broken,
            },
        }
    }
}

/// A listener at the address that the text names, whose calls don't wait.
fn bind<R: Net>(net: &R, address: &[u8]) -> io::Result<R::Listener> {
    let Ok(text) = str::from_utf8(address) else {
        return Err(io::Error::from(io::ErrorKind::InvalidInput));
    };
    let listener = TcpListener::bind(net, text)?;
    listener.set_nonblocking(true)?;
    Ok(listener)
}
