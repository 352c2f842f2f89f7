//! All streams of a listener.

use crate::link::{Link, NOWHERE};
use crate::ready_stream::ReadyStream;
use crate::silence::Due;
use crate::turn::Turn;
use mio::net::{TcpListener, TcpStream};
use mio::{Events, Interest, Poll, Token};
use std::alloc::{AllocError, Global};
use std::io;
use std::io::ErrorKind;
use std::net::{Net, SocketAddr};
use std::rc::Rc;
use std::time::Duration;

/// The most events that one wait takes.
const MAX_EVENTS: usize = 1024;

/// The token of the listener. A stream's is its place among the links.
const LISTENER: Token = Token(usize::MAX);

/// The streams of the connections of one listener, and what the system has reported of them.
#[derive(Drop)]
pub struct Streams {
    alloc: Global,
    poll: Poll,
    events: Events,
    listener: TcpListener,
    /// There may be a connection to accept.
    may_accept: bool,
    turn: Rc<Turn>,
    /// By token. `None` is free.
    links: Vec<Option<Rc<Link>>>,
    /// The tokens that are free. It has room for all.
    free: Vec<usize>,
    /// The tokens of the streams that may be read. It has room for all.
    readable: Vec<usize>,
    /// The places of their peers, as `readable_peers` found them. It has room for all.
    places: Vec<usize>,
    /// The places of the peers to whom a ping is due, as `find_silent` found them. It has room for all.
    to_ping: Vec<usize>,
    /// The places of the peers whose end is due. It has room for all.
    to_end: Vec<usize>,
}

impl Streams {
    /// The streams of a listener at an address, with the longest queue of connections that the system allows. `rt`
    /// gives the network. Errors: the address is in use, not allowed or none of this machine, and those of the
    /// system's epoll.
    pub fn listen<N: Net>(alloc: Global, rt: &N, address: SocketAddr) -> io::Result<Streams> {
        let poll = Poll::new(rt)?;
        let mut listener = TcpListener::bind(rt, address)?;
        poll.registry()
            .register(&mut listener, LISTENER, Interest::READABLE)?;
        Ok(Streams {
            alloc,
            poll,
            events: Events::with_capacity(alloc, MAX_EVENTS)?,
            listener,
            may_accept: true,
            turn: Rc::new(alloc, Turn::new(alloc))?,
            links: Vec::new(alloc),
            free: Vec::new(alloc),
            readable: Vec::new(alloc),
            places: Vec::new(alloc),
            to_ping: Vec::new(alloc),
            to_end: Vec::new(alloc),
        })
    }

    /// Accepts one connection: its stream, and the address that it comes from. `None` is that there is none. Errors:
    /// those of the system's accept, as where no descriptor is left, after which the connection waits on; and those of
    /// setting it up, after which it is dropped.
    pub fn accept(&mut self) -> io::Result<Option<(ReadyStream, SocketAddr)>> {
        if !self.may_accept {
            return Ok(None);
        }
        match self.listener.accept() {
            Ok((stream, address)) => Ok(Some((self.add(stream)?, address))),
            Err(error) if error.kind() == ErrorKind::WouldBlock => {
                self.may_accept = false;
                Ok(None)
            }
            Err(error) => Err(error),
        }
    }

    fn add(&mut self, mut stream: TcpStream) -> io::Result<ReadyStream> {
        stream.set_nodelay(true)?;
        let token = self.free_token()?;
        self.poll.registry().register(
            &mut stream,
            Token(token),
            Interest::READABLE | Interest::WRITABLE,
        )?;
        let link = Rc::new(self.alloc, Link::new(&self.turn, stream, token))?;
        let shared = Rc::clone(&link)?;
        let turn = Rc::clone(&self.turn)?;
        if let Some(place) = self.links.get_mut(token) {
            *place = Some(shared);
            let _taken = self.free.pop();
            let _listed = self.readable.push(token);
        }
        Ok(ReadyStream::new(link, turn))
    }

    /// The last token that is free, with room on all lists.
    fn free_token(&mut self) -> io::Result<usize> {
        if let Some(token) = self.free.last() {
            return Ok(*token);
        }
        let token = self.links.len();
        let places = token.saturating_add(1);
        self.turn.reserve(places)?;
        reserve(&mut self.free, places)?;
        reserve(&mut self.readable, places)?;
        reserve(&mut self.places, places)?;
        reserve(&mut self.to_ping, places)?;
        reserve(&mut self.to_end, places)?;
        self.links.push(None)?;
        self.free.push(token)?;
        Ok(token)
    }

    /// Whether there may be a connection to accept.
    pub fn may_accept(&self) -> bool {
        self.may_accept
    }

    /// Waits for a report of the system, but no longer than that, and takes up to 1,024 reports; the others come
    /// with the next wait. Then a turn begins. Errors: those of the system's wait. A signal is none.
    pub fn wait(&mut self, time: Duration) -> io::Result<()> {
        self.poll.poll(&mut self.events, Some(time))?;
        for event in &self.events {
            let token = event.token();
            if token == LISTENER {
                self.may_accept = true;
                continue;
            }
            let Some(Some(link)) = self.links.get(token.0) else {
                continue;
            };
            if event.is_writable() {
                link.unblock();
            }
            let is_ending = event.is_read_closed() || event.is_error();
            if event.is_readable() || is_ending {
                link.readiness.report(is_ending);
                if !link.is_listed.replace(true) {
                    let _listed = self.readable.push(token.0);
                }
            }
        }
        self.turn.begin();
        Ok(())
    }

    /// The places of the peers whose streams may be read, in any order.
    pub fn readable_peers(&mut self) -> &[usize] {
        self.places.clear();
        for token in &self.readable {
            if let Some(Some(link)) = self.links.get(*token) {
                let place = link.place.get();
                if place != NOWHERE {
                    let _listed = self.places.push(place);
                }
            }
        }
        self.places.as_slice()
    }

    /// From now on the system is given nothing before the end of a turn, however much waits.
    pub fn hold(&self) {
        self.turn.hold();
    }

    /// It is that second now, by a clock that never goes back. It is 0 before the first call.
    pub fn set_second(&mut self, second: u64) {
        self.turn.set_second(second);
    }

    /// Finds the peers that are silent in this second, by a walk over all streams. `to_ping` then gives those of which
    /// no byte was read for at least `ping_after` seconds, each once in a silence. `to_end` then gives those of which
    /// no byte was read for at least `answer_within` seconds after `to_ping` gave them, in each call. A peer whose
    /// bytes wait for a read isn't silent. The silence of a new peer begins as its stream is accepted.
    pub fn find_silent(&mut self, ping_after: u64, answer_within: u64) {
        self.to_ping.clear();
        self.to_end.clear();
        for link in &self.links {
            let Some(link) = link else {
                continue;
            };
            if is_gone(link) {
                continue;
            }
            match link.due(&self.turn, ping_after, answer_within) {
                Some(Due::Ping) => {
                    let _listed = self.to_ping.push(link.place.get());
                }
                Some(Due::End) => {
                    let _listed = self.to_end.push(link.place.get());
                }
                None => {}
            }
        }
        self.to_ping.sort_unstable();
        self.to_end.sort_unstable();
    }

    /// The places of the peers to whom a ping is due, in ascending order, as `find_silent` found them last.
    pub fn to_ping(&self) -> &[usize] {
        self.to_ping.as_slice()
    }

    /// The places of the peers whose end is due, in ascending order, as `find_silent` found them last.
    pub fn to_end(&self) -> &[usize] {
        self.to_end.as_slice()
    }

    /// How many bytes wait in all streams until the system takes them, by a walk over all.
    pub fn count_unsent(&self) -> usize {
        let mut count = 0_usize;
        for link in &self.links {
            if let Some(link) = link {
                count = count.saturating_add(link.count_unsent());
            }
        }
        count
    }

    /// Ends a turn: what was written is given to the system, and the streams that are gone are closed.
    pub fn end_turn(&mut self) {
        for _ in 0..self.turn.count_used() {
            if let Some(token) = self.turn.take_used() {
                self.give_and_release(token);
            }
        }
        self.unlist();
    }

    /// Drops what was written in this turn, if the streams hold it. A stream that can't do without it takes nothing any more.
    pub fn drop_turn(&mut self) {
        for index in 0..self.turn.count_used() {
            if let Some(token) = self.turn.used_at(index) {
                if let Some(Some(link)) = self.links.get(token) {
                    link.drop_turn();
                }
            }
        }
    }

    /// Gives the system what waits in the stream with that token, and closes it if it is gone.
    fn give_and_release(&mut self, token: usize) {
        if let Some(Some(link)) = self.links.get(token) {
            link.is_noted.set(false);
            link.give();
        }
        self.release(token);
    }

    /// Closes all streams that are gone. Those that were neither read nor written in their last turn are closed by
    /// this alone.
    pub fn release_all(&mut self) {
        for token in 0..self.links.len() {
            self.release(token);
        }
        self.unlist();
    }

    /// Closes the stream with that token, if it is gone.
    fn release(&mut self, token: usize) {
        if let Some(place) = self.links.get_mut(token) {
            if place.as_ref().is_some_and(is_gone) {
                *place = None;
                let _freed = self.free.push(token);
            }
        }
    }

    /// Takes those off the list that have nothing to be read.
    fn unlist(&mut self) {
        let links = &self.links;
        self.readable.retain(|token| match links.get(*token) {
            Some(Some(link)) => {
                let stays = link.readiness.may_find();
                link.is_listed.set(stays);
                stays
            }
            Some(None) | None => false,
        });
    }
}

/// Makes room for so many in all.
fn reserve(list: &mut Vec<usize>, places: usize) -> Result<(), AllocError> {
    list.reserve(places.saturating_sub(list.len()))
}

/// Whether the stream is gone, so that its link has no other owner.
fn is_gone(link: &Rc<Link>) -> bool {
    Rc::strong_count(link) == 1
}
