//! Whom a turn serves: operators by what serving them has cost, and the connections of one in turn.
ghost use Rattle.std.specs.Prelude.{◌≡◌, ◌<◌, ◌+◌, IfSome, Some, length, max, min};
ghost use Rattle.ready_streams.specs.Shares.{IsLeastBelow, charge_of};

use ocpp_types::{Mem, Text};
use ready_streams::{ReadyStream, Shares};
use std::alloc::Global;
use std::collections::VecDeque;
use ws_peers::Route;
use ws_server::Gateway;

/// An event that takes more nanoseconds than these is long. Its operator rests afterwards, so that of the messages of
/// others one in ten meets a long event at most.
const LONG: u64 = 50_000_000;

/// How many times as long as a long event its operator rests.
const REST: u64 = 9;

/// The operators, and their connections that have something to read.
#[derive(Drop)]
pub struct Service {
    /// The operators that are hosted, in order.
    operators: Vec<Text>,
    shares: Shares,
    /// By operator: the places of its connections that have something to read, the one first that has waited longest.
    queues: Vec<VecDeque<usize>>,
    /// By operator: whether one waits.
    waits: Vec<bool>,
    /// By place: whether it is in a queue.
    queued: Vec<bool>,
}

impl Service {
    /// The service of those operators, which are numbered in the order of their names.
    pub fn new(alloc: Global, operators: &[Text]) -> Mem<Service> {
        let names = sorted(alloc, operators)?;
        let count = names.len();
        Ok(Service {
            shares: Shares::new(alloc, count)?,
            operators: names,
            queues: empty_queues(alloc, count)?,
            waits: filled(alloc, count)?,
            queued: Vec::new(alloc),
        })
    }

    /// The operators, in their order.
    pub fn operators(&self) -> &[Text] {
        self.operators.as_slice()
    }

    /// A turn begins, in which these places have something to read. Those that don't wait already come behind the others of
    /// their operators. One for which there is no memory comes in a later turn.
    pub fn begin(&mut self, gateway: &Gateway<ReadyStream>, places: &[usize]) {
        for place in places {
            if !self.is_queued(*place) {
                let _later = self.queue(gateway, *place);
            }
        }
    }

    fn is_queued(&self, place: usize) -> bool {
        self.queued.get(place).copied().unwrap_or(false)
    }

    /// Puts a place behind the others of its operator, if that is hosted.
    fn queue(&mut self, gateway: &Gateway<ReadyStream>, place: usize) -> Mem<()> {
        let Some(owner) = self.owner_of(gateway, place) else {
            return Ok(());
        };
        let count = place.saturating_add(1);
        if self.queued.len() < count {
            self.queued.resize(count, false)?;
        }
        if let Some(queue) = self.queues.get_mut(owner) {
            queue.push_back(place)?;
            set(&mut self.queued, place, true);
            set(&mut self.waits, owner, true);
        }
        Ok(())
    }

    /// How many operators wait.
    pub fn count_waiting(&self) -> usize {
        self.waits.iter().filter(|waits| **waits).count()
    }

    /// The number of the operator of the connection at that place. One of an operator that isn't hosted has none.
    pub fn owner_of(&self, gateway: &Gateway<ReadyStream>, place: usize) -> Option<usize> {
        let operator = gateway.route(place)?.operator();
        self.operators.binary_search(operator).ok()
    }

    /// The operator and the place that are served next at that time, in nanoseconds: of the operators of whom one waits and that
    /// don't rest, one that was charged least. The connection there may be gone, or another one.
    pub fn next(&mut self, now: u64) -> Option<(usize, usize)>
        ensures least { IfSome result (λ next. IsLeastBelow (length self.old.waits.items) self.old.shares self.old.waits.items now (Some next.0)) }
        ensures shares { self.new.shares ≡ self.old.shares }
    {
        let owner = self.shares.next(self.waits.as_slice(), now)?;
        let queue = self.queues.get_mut(owner)?;
        let place = queue.pop_front();
        let waits = !queue.is_empty();
        set(&mut self.waits, owner, waits);
        let place = place?;
        set(&mut self.queued, place, false);
        Some((owner, place))
    }

    /// As `next`, but passes over places at which there is no connection of the operator any more.
    pub fn next_there(
        &mut self,
        gateway: &Gateway<ReadyStream>,
        now: u64,
    ) -> Option<(usize, usize)> {
        for _ in 0..u64::MAX {
            let (owner, place) = self.next(now)?;
            if self.owner_of(gateway, place) == Some(owner) {
                return Some((owner, place));
            }
        }
        None
    }

    /// An operator was served up to that time, which took so many nanoseconds. After a long event it rests, if others are
    /// connected.
    pub fn charge(&mut self, gateway: &Gateway<ReadyStream>, owner: usize, cost: u64, now: u64)
        ensures { owner < length self.old.shares.charged.items → charge_of self.new.shares owner ≡ min (charge_of self.old.shares owner + max cost 1) 18446744073709551615 }
    {
        self.shares.charge(owner, cost);
        if cost > LONG && self.has_others(gateway, owner) {
            let time = cost.saturating_mul(REST);
            self.shares.rest(owner, now.saturating_add(time));
        }
    }

    /// Whether another operator is connected.
    fn has_others(&self, gateway: &Gateway<ReadyStream>, owner: usize) -> bool {
        let own = self.operators.get(owner);
        (0..gateway.count()).any(|place| gateway.route(place).map(Route::operator) != own)
    }

    /// In how many nanoseconds from that time on one of the connections at these places may be served. `None` where there is
    /// none.
    pub fn pause(&self, gateway: &Gateway<ReadyStream>, places: &[usize], now: u64) -> Option<u64> {
        let mut first: Option<u64> = None;
        for place in places {
            if let Some(owner) = self.owner_of(gateway, *place) {
                let pause = self.shares.rests_until(owner).saturating_sub(now);
                if pause == 0 {
                    return Some(0);
                }
                first = Some(first.map_or(pause, |first| first.min(pause)));
            }
        }
        first
    }
}

/// Names in order.
fn sorted(alloc: Global, names: &[Text]) -> Mem<Vec<Text>> {
    let mut sorted = Vec::new(alloc);
    for name in names {
        sorted.push(name.clone()?)?;
    }
    sorted.sort_unstable();
    Ok(sorted)
}

fn empty_queues(alloc: Global, count: usize) -> Mem<Vec<VecDeque<usize>>> {
    let mut queues = Vec::new(alloc);
    for _ in 0..count {
        queues.push(VecDeque::new(alloc))?;
    }
    Ok(queues)
}

fn filled(alloc: Global, count: usize) -> Mem<Vec<bool>> {
    let mut items = Vec::new(alloc);
    items.resize(count, false)?;
    Ok(items)
}

fn set(items: &mut Vec<bool>, at: usize, to: bool) {
    if let Some(item) = items.get_mut(at) {
        *item = to;
    }
}
