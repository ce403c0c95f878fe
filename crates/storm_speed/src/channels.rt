//! The same traffic over two bounded channels, timed.
use crate::work::Work;
use crossbeam_channel::{Receiver, Sender, TryRecvError, bounded};
use crossbeam_utils::Backoff;
use std::alloc::{AllocError, Global};
use std::sync::Wait;
use std::thread;
use std::thread::Threads;
use std::time::{Clock, Duration, Instant};

/// How many messages a channel has room for, as many as a ring.
const CAPACITY: usize = 256;

/// A thread's ends: it sends on one channel and receives from the other.
#[derive(Drop)]
struct Worker<const N: usize> {
    /// The thread drops it when it has sent its messages. With the last sender the channel is disconnected.
    sender: Sender<[u8; N], Global>,
    receiver: Receiver<[u8; N], Global>,
}

/// How long this work takes with messages of `N` bytes. There is none where the clock or the memory fails.
pub fn time<R: Threads + Wait + Clock + Sync, const N: usize>(
    rt: &R,
    alloc: Global,
    work: Work,
) -> Option<Duration> {
    let workers = workers::<N>(alloc, work.each).ok()?;
    let count = work.count;
    let start = Instant::now(rt).ok()?;
    if thread::map_vec(rt, workers, &|worker: Worker<N>| do_work(rt, worker, count)).is_err() {
        return None;
    }
    start.elapsed(rt).ok()
}

/// So many workers on each end.
fn workers<const N: usize>(alloc: Global, each: u8) -> Result<Vec<Worker<N>>, AllocError> {
    let (host_sender, remote_receiver) = bounded::<[u8; N], Global>(alloc, CAPACITY)?;
    let (remote_sender, host_receiver) = bounded::<[u8; N], Global>(alloc, CAPACITY)?;
    let mut workers = Vec::new(alloc);
    for _ in 0..each {
        workers.push(Worker {
            sender: host_sender.clone()?,
            receiver: host_receiver.clone()?,
        })?;
        workers.push(Worker {
            sender: remote_sender.clone()?,
            receiver: remote_receiver.clone()?,
        })?;
    }
    Ok(workers)
}

/// Sends so many messages, and receives until the other end has sent its own and each was received.
fn do_work<R: Wait, const N: usize>(rt: &R, worker: Worker<N>, count: u32) {
    let Worker { sender, receiver } = worker;
    let idle = Backoff::new();
    let mut sent = 0;
    for _ in rt.forever() {
        if sent >= count {
            break;
        }
        let before = sent;
        if sender.try_send(rt, [1; N]).is_ok() {
            sent += 1;
        }
        match receiver.try_recv(rt) {
            Err(_) if sent == before => idle.snooze(),
            Ok(_) | Err(_) => idle.reset(),
        }
    }
    drop(sender);
    for _ in rt.forever() {
        match receiver.try_recv(rt) {
            Ok(_message) => idle.reset(),
            Err(TryRecvError::Empty) => idle.snooze(),
            Err(TryRecvError::Disconnected) => return,
        }
    }
    unreachable!()
}
