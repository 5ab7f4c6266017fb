//! The connections of a listener: those whose requests come, those whose requests are there, and
//! those whose answers wait.
ghost use Rattle.std.specs.Prelude.{◌≡◌, ◌↔◌, ◌+◌, ◌-◌, ◌^◌, ◌<◌, false, is_some};
ghost use Rattle.std.specs.Prelude.{if◌then◌else◌, IfSome, IsTrue};
ghost use Rattle.std.specs.Duration.{as_nanos};
ghost use Rattle.std.specs.Option.{option_map};
ghost use Rattle.std.specs.VecDeque.{deque_items, deque_len};
ghost use Rattle.farm_room.specs.Waiting.{AllStay};

use crate::connection::Connection;
use crate::deadline::{is_shorter, shorter};
use crate::inbox::{LONGEST_REQUEST, Look};
use crate::row::{MOST_ANSWERS, cut_overdue, is_first_overdue, place_of, put_aside, time_of_first};
use mio::event::Event;
use mio::unix::SourceFd;
use mio::{Events, Interest, Poll, Token};
use std::alloc::Global;
use std::collections::VecDeque;
use std::io::ErrorKind;
use std::net::{Net, TcpListener, TcpStream};
use std::os::fd::AsRawFd;
use std::time::{Clock, Duration};

/// The most connections that wait for their requests, or with them for their turn. Where so many do,
/// the oldest incomplete one goes for the next.
const MOST_WAITING: usize = 1_024;

/// The most events that are taken at once.
const MOST_EVENTS: usize = 256;

/// How long nobody is accepted after the system has refused to, in milliseconds.
const PAUSE_MILLISECONDS: u64 = 100;

/// The listener's token. A connection's is its number, in the order of arrival.
const LISTENER: Token = Token(usize::MAX);

/// The connections of a listener, from their accept until their answers are taken, or their time is
/// over. Each has what came of its request, read once, and then what is left of its answer; so those
/// that wait cost the others nothing but memory, at most 73,728 bytes each for a request. Among
/// those whose requests are there the first that came is the next.
///
/// There is a place for each that may wait from the start, and whoever is accepted is served, unless
/// so many wait that the oldest incomplete one goes, or there is no memory for what came of its
/// request. The `incomplete` ones, whose requests aren't there, and the `leaving` ones, whose
/// answers aren't taken, are registered; all rows are in the order of their numbers.
#[derive(Drop)]
pub struct Connections {
    poll: Poll,
    events: Events,
    room: Vec<u8>,
    incomplete: VecDeque<Connection>,
    ready: VecDeque<Connection>,
    leaving: VecDeque<Connection>,
    numbered: usize,
    to_accept: u64,
    has_arrivals: bool,
    refused: u64,
    paused_until: Option<Duration>,
    no_memory: &'static [u8],
    alloc: Global,
}

impl Connections {
    ghost use Rattle.farm_room.specs.Waiting.{limit_left, outstanding, pause_left};
    ghost use Rattle.farm_room.specs.Waiting.{shorter, time_of, IsDue, IsOverdue, IsPaused};
    ghost use Rattle.farm_room.specs.Waiting.{IsUntouched, LosesNobody, TakesNext, LetsOldestGo};
    ghost use Rattle.farm_room.specs.Waiting.{MakesPlace, PutsAside, Refuses, Stay, TakesReady};

    /// The first `max` connections of a listener, none of which was accepted yet; none where the
    /// system or the memory refuses what that takes, and then the listener is as it was. `no_memory`
    /// is what a client is answered for whose bytes there is no memory.
    pub fn new(
        alloc: Global,
        net: &impl Net,
        listener: &TcpListener,
        max: u64,
        no_memory: &'static [u8],
    ) -> Option<Self>
        ensures { IfSome result (IsUntouched max) }
    {
        let poll = Poll::new(net).ok()?;
        let events = Events::with_capacity(alloc, MOST_EVENTS).ok()?;
        let room = Vec::from_elem(alloc, 0u8, LONGEST_REQUEST).ok()?;
        let incomplete = VecDeque::with_capacity(alloc, MOST_WAITING).ok()?;
        let ready = VecDeque::with_capacity(alloc, MOST_WAITING).ok()?;
        let leaving = VecDeque::with_capacity(alloc, MOST_ANSWERS + 1).ok()?;
        let fd = listener.as_raw_fd();
        poll.registry()
            .register(&mut SourceFd(&fd), LISTENER, Interest::READABLE)
            .ok()?;
        listener.set_nonblocking(true).ok()?;
        Some(Connections {
            poll,
            events,
            room,
            incomplete,
            ready,
            leaving,
            numbered: 0,
            to_accept: max,
            has_arrivals: true,
            refused: 0,
            paused_until: None,
            no_memory,
            alloc,
        })
    }

    /// The next connection whose request is there; none for one that the system refused, that went
    /// for others, or whose time is over: that is closed. It waits until there is one.
    pub fn next_connection<C: Clock>(
        &mut self,
        listener: &TcpListener,
        clock: &C,
    ) -> Option<Connection>
        ensures one_fewer { outstanding self.old < 2 ^ 64
            → outstanding self.new ≡ outstanding self.old - 1 }

        // Nobody whose request is there is dropped.
        ensures ready { TakesReady self.old self.new result }
    {
        let mut now = clock.monotonic().ok();
        for _ in 0..u64::MAX {
            cut_overdue(&mut self.leaving, now);
            self.accept_all(listener, now);
            // Who waits is looked at before whoever came now, also while there is always one ready.
            let has_registered = !self.incomplete.is_empty() || !self.leaving.is_empty();
            if has_registered && self.has_next(now) {
                self.poll_events(Some(Duration::ZERO));
            }
            if self.has_next(now) {
                break;
            }
            let until = self.time_left(now);
            self.poll_events(until);
            now = clock.monotonic().ok();
        }
        self.take_next(now)
    }

    /// Whether nothing is to be waited for: somebody is ready, or timed out, or was refused, or
    /// nobody is left.
    fn has_next(&self, now: Option<Duration>) -> bool
        ensures { IsTrue result ↔ IsDue now self.now }
    {
        !self.ready.is_empty()
            || is_first_overdue(&self.incomplete, now)
            || self.refused > 0
            || self.to_accept == 0 && self.incomplete.is_empty()
    }

    /// Lets go the first whose time is over, or else takes the first that is ready, or else one that
    /// was refused.
    fn take_next(&mut self, now: Option<Duration>) -> Option<Connection>
        ensures next { TakesNext now self.old self.new result }
        ensures ready { TakesReady self.old self.new result }
    {
        if !is_first_overdue(&self.incomplete, now) {
            if let Some(connection) = self.ready.pop_front() {
                return Some(connection);
            }
            if self.refused > 0 {
                self.refused -= 1;
                return None;
            }
        }
        if self.incomplete.pop_front().is_none() {
            self.to_accept = self.to_accept.saturating_sub(1);
        }
        None
    }

    /// Accepts those that came, as far as there is room beside those that are ready.
    fn accept_all(&mut self, listener: &TcpListener, now: Option<Duration>)
        // Nobody is accepted for a while once the system has refused to.
        ensures paused { IsPaused now self.old.paused_until → self.new ≡ self.old }
        ensures all { LosesNobody self.old self.new }
        ensures ready { Stay (deque_items self.old.ready) (deque_items self.new.ready) }
    {
        let times = self.paused_until.zip(now);
        if times.is_some_and(|(until, now)| is_shorter(now, until)) {
            return;
        }
        let mut may_go = true;
        for _ in 0..MOST_WAITING {
            if !self.has_arrivals || self.to_accept == 0 || self.ready.len() >= MOST_WAITING {
                return;
            }
            match listener.accept() {
                Ok((stream, _)) => {
                    may_go = true;
                    self.take_in(stream, now);
                }
                Err(error) if error.kind() == ErrorKind::WouldBlock => self.has_arrivals = false,
                Err(_) => {
                    if self.refuse(now, may_go) {
                        return;
                    }
                    may_go = false;
                }
            }
        }
    }

    /// Takes in a connection that was accepted; where all places are taken the oldest incomplete
    /// one goes for it.
    fn take_in(&mut self, stream: TcpStream, now: Option<Duration>)
        requires { 0 < self.old.to_accept }
        ensures all { LosesNobody self.old self.new }
        ensures place { MakesPlace self.old self.new }
        ensures ready { Stay (deque_items self.old.ready) (deque_items self.new.ready) }
        ensures arrivals { self.new.has_arrivals ≡ self.old.has_arrivals }
    {
        self.to_accept -= 1;
        if self.incomplete.len().saturating_add(self.ready.len()) >= MOST_WAITING {
            self.let_oldest_go();
        }
        if self.add(stream, now).is_none() {
            self.refused = self.refused.saturating_add(1);
        }
    }

    /// Counts a connection that the system refused to accept. Where it wants what another has, as a
    /// descriptor, the oldest incomplete one goes if it may; else nobody is accepted for a while,
    /// and that is returned.
    fn refuse(&mut self, now: Option<Duration>, may_go: bool) -> bool
        requires { 0 < self.old.to_accept }
        ensures refuses { Refuses now may_go self.old self.new result }
        ensures ready { self.new.ready ≡ self.old.ready }
    {
        self.to_accept -= 1;
        self.refused = self.refused.saturating_add(1);
        if may_go && self.let_oldest_go() {
            return false;
        }
        let pause = Duration::from_millis(PAUSE_MILLISECONDS);
        self.paused_until = now.map(|now| now.saturating_add(pause));
        true
    }

    /// Closes the oldest incomplete connection, and counts it as refused; none where there is none.
    fn let_oldest_go(&mut self) -> bool
        ensures oldest { LetsOldestGo self.old self.new result }
        ensures ready { self.new.ready ≡ self.old.ready }
    {
        if self.incomplete.is_empty() {
            return false;
        }
        let _ = self.incomplete.pop_front();
        self.refused = self.refused.saturating_add(1);
        true
    }

    /// Adds a connection, to the ready ones where its request is there; none where the system
    /// refuses, or where nobody is to be answered.
    fn add(&mut self, stream: TcpStream, now: Option<Duration>) -> Option<()>
        ensures one { outstanding self.new
            ≡ outstanding self.old + (if is_some result then 1 else 0) }
        ensures number { IfSome result (λ _. self.old.numbered + 1 < 2 ^ 64
            → self.new.numbered ≡ self.old.numbered + 1) }
        ensures others { Stay (deque_items self.old.incomplete) (deque_items self.new.incomplete) }
        ensures ready { Stay (deque_items self.old.ready) (deque_items self.new.ready) }
        ensures arrivals { self.new.has_arrivals ≡ self.old.has_arrivals }
    {
        stream.set_nonblocking(true).ok()?;
        let number = self.next_number();
        let since = now.unwrap_or(Duration::ZERO);
        let mut connection = Connection::new(self.alloc, number, stream, since);
        match connection.take_in(self.room.as_mut_slice(), self.no_memory) {
            Look::Done => return self.ready.push_back(connection).ok(),
            Look::NoMemory | Look::Failed => return None,
            Look::Open => {}
        }
        let fd = connection.stream.as_raw_fd();
        self.poll
            .registry()
            .register(&mut SourceFd(&fd), Token(number), Interest::READABLE)
            .ok()?;
        self.incomplete.push_back(connection).ok()
    }

    /// The next number.
    fn next_number(&mut self) -> usize
        ensures number { self.old.numbered + 1 < 2 ^ 64
            → self.new.numbered ≡ self.old.numbered + 1 }
        ensures all { outstanding self.new ≡ outstanding self.old }
        ensures incomplete { self.new.incomplete ≡ self.old.incomplete }
        ensures ready { self.new.ready ≡ self.old.ready }
        ensures leaving { self.new.leaving ≡ self.old.leaving }
        ensures arrivals { self.new.has_arrivals ≡ self.old.has_arrivals }
        ensures result { result ≡ self.old.numbered }
    {
        let number = self.numbered;
        self.numbered = number.wrapping_add(1);
        number
    }

    /// Sends an answer as far as its client takes it at once, and closes the connection; what is left
    /// waits aside, where the system lets it.
    pub fn send<C: Clock>(&mut self, mut connection: Connection, clock: &C)
        ensures all { outstanding self.new ≡ outstanding self.old }
        ensures incomplete { self.new.incomplete ≡ self.old.incomplete }
        ensures ready { self.new.ready ≡ self.old.ready }
        ensures aside { PutsAside (deque_items self.old.leaving) (deque_items self.new.leaving) }
    {
        if !connection.send() {
            connection.shut_down();
            return;
        }
        let number = self.next_number();
        let fd = connection.stream.as_raw_fd();
        let registry = self.poll.registry();
        let _ = registry.deregister(&mut SourceFd(&fd));
        let registered = registry.register(&mut SourceFd(&fd), Token(number), Interest::WRITABLE);
        if let (Ok(()), Ok(since)) = (registered, clock.monotonic()) {
            connection.number = number;
            connection.since = since;
            put_aside(&mut self.leaving, connection);
        }
    }

    /// Waits until those whose answers wait aside took them, or their time is over.
    pub fn send_rest<C: Clock>(&mut self, clock: &C) {
        for _ in 0..u64::MAX {
            let now = clock.monotonic().ok();
            cut_overdue(&mut self.leaving, now);
            if self.leaving.is_empty() {
                return;
            }
            let until = time_of_first(&self.leaving, now.unwrap_or(Duration::ZERO));
            if self.poll.poll(&mut self.events, until).is_err() {
                return;
            }
            for event in self.events.iter() {
                send_more(&mut self.leaving, event.token().0);
            }
        }
    }

    /// Waits so long at most until bytes, room for bytes or connections came, takes in what came,
    /// and sends what waits aside.
    fn poll_events(&mut self, until: Option<Duration>)
        ensures all { LosesNobody self.old self.new }
        ensures ready { AllStay (deque_items self.old.ready) (deque_items self.new.ready) }
    {
        if self.poll.poll(&mut self.events, until).is_err() {
            return;
        }
        for event in self.events.iter() {
            self.has_arrivals |= event.token() == LISTENER;
            if event.is_writable() {
                send_more(&mut self.leaving, event.token().0);
            }
            let (room, incomplete) = (self.room.as_mut_slice(), &mut self.incomplete);
            let lost = take_in_more(event, room, self.no_memory, incomplete, &mut self.ready);
            self.refused = self.refused.saturating_add(lost);
        }
    }

    /// How long to wait at most.
    fn time_left(&self, now: Option<Duration>) -> Option<Duration>
        ensures { option_map as_nanos result ≡ shorter (pause_left (time_of now) self.now.paused_until)
            (shorter (limit_left (time_of now) (deque_items self.now.incomplete))
            (limit_left (time_of now) (deque_items self.now.leaving))) }
    {
        let now = now.unwrap_or(Duration::ZERO);
        let pause = match self.paused_until {
            Some(until) if is_shorter(now, until) => Some(until.saturating_sub(now)),
            _ => None,
        };
        shorter(
            pause,
            shorter(
                time_of_first(&self.incomplete, now),
                time_of_first(&self.leaving, now),
            ),
        )
    }
}

/// Sends more to the client of that number. Who has all then, or takes no more, goes.
fn send_more(leaving: &mut VecDeque<Connection>, number: usize) {
    let Some(place) = place_of(leaving, number) else {
        return;
    };
    if let Some(connection) = leaving.get_mut(place) {
        if connection.send() {
            return;
        }
        connection.shut_down();
    }
    let _ = leaving.remove(place);
}

/// Takes in what came for the connection that an event names, and moves it to the ready ones, in the
/// order of arrival, where its request is there. Returns how many were lost, for want of memory or
/// since nobody is to be answered: none or that one.
fn take_in_more(
    event: &Event,
    room: &mut [u8],
    no_memory: &[u8],
    incomplete: &mut VecDeque<Connection>,
    ready: &mut VecDeque<Connection>,
) -> u64
    ensures all { deque_len incomplete.new + deque_len ready.new + result
        ≡ deque_len incomplete.old + deque_len ready.old }
    ensures ready { AllStay (deque_items ready.old) (deque_items ready.new) }
{
    let number = event.token().0;
    let is_over = event.is_read_closed() || event.is_error();
    let Some(place) = place_of(incomplete, number) else {
        return 0;
    };
    let look = match incomplete.get_mut(place) {
        Some(connection) => connection.take_in(room, no_memory),
        None => return 0,
    };
    if look == Look::Open && !is_over {
        return 0;
    }
    let Some(connection) = incomplete.remove(place) else {
        return 0;
    };
    if matches!(look, Look::NoMemory | Look::Failed) {
        return 1;
    }
    let place = ready.partition_point(|it| it.number < number);
    u64::from(ready.insert(place, connection).is_err())
}
