// Eight callers of one link, four on each end, each on a thread of its own: each sends and takes its messages, and each number that was
// handed over is compared with the book of its lane. Then two senders of another link take the steps of their calls in turns, a manager has a
// message go between two callers that it carries, another reclaims a caller that stopped in a send, and a managed link lives twice. Last a link
// that two threads share lives twice: in its first life a sender stops in the middle of a send, with the turn and a buffer. The link is closed,
// what the sender had is reclaimed, and the link is opened again; in the second life a new sender is heard, and nothing of the old one.
#![tactic(auto)]

ghost use Rattle.split_ring.specs.Callers.{IsCallerOf};

mod books;
mod carried;
mod lives;
mod managed;
mod small_links;
mod stopped;
mod threads;
mod turns;
mod users;
mod workers;

use crate::books::Book;
use crate::carried::can_carry;
use crate::managed::can_manage;
use crate::stopped::can_reclaim;
use crate::workers::{Log, MESSAGES, Worker, workers};
use channel_bus::Side;
use lane_model::LinkConfig;
use rp_base::{End, NoMemory};
use split_ring::SharedLink;
use std::alloc::Global;
use std::thread::Threads;
use std::{io, thread};

fn main(rt: HostRuntime) -> io::Result<()> {
    match run(&rt, rt.alloc()) {
        Ok((to_host, to_remote, changes)) => {
            println!(rt; "to the host: {}", to_host)?;
            println!(rt; "to the remote: {}", to_remote)?;
            println!(rt; "endpoints bound and unbound: {}", changes)?;
        }
        Err(_) => println!(rt; "no memory")?,
    }
    match turns::run(&rt, rt.alloc()) {
        Ok(lines) => {
            for line in &lines {
                println!(rt; "{line}")?;
            }
        }
        Err(_) => println!(rt; "no memory")?,
    }
    match can_carry(rt.alloc()) {
        Ok(passed) => println!(rt;
            "a message between two callers that the manager carries: {passed}"
        )?,
        Err(_) => println!(rt; "no memory")?,
    }
    match can_reclaim(rt.alloc()) {
        Ok(gone) => println!(rt; "a caller that stopped in a send is reclaimed: {gone}")?,
        Err(_) => println!(rt; "no memory")?,
    }
    match can_manage(rt.alloc()) {
        Ok(managed) => println!(rt; "a managed link lives twice, and a caller goes on: {managed}")?,
        Err(_) => println!(rt; "no memory")?,
    }
    write_lives(&rt)
}

/// Has the link live twice, and writes what came of each life.
fn write_lives<R: AllocGlobal + Print + Threads + Sync>(rt: &R) -> io::Result<()> {
    match lives::run(rt, rt.alloc()) {
        Ok(lives) => {
            println!(rt; "life 1: {}", lives.first)?;
            let books = &lives.books;
            println!(rt;
                "incarnation {}: {} accepted, {} handed over",
                books.inc,
                books.to_host.len(),
                books.to_host_handed
            )?;
            println!(rt; "life 2: {}", lives.second)?;
            println!(rt; "closed by its caller: {}", lives.is_closed)
        }
        Err(halt) => println!(rt; "halted: {halt:?}"),
    }
}

/// Runs the callers, enters what they did into the books of the two lanes, and counts those whose endpoint was bound and unbound.
fn run<R: Threads + Sync>(rt: &R, alloc: Global) -> Result<(Book, Book, usize), NoMemory> {
    let config = LinkConfig {
        num0: 64,
        num1: 64,
        book: 4 * MESSAGES,
        first: 1,
        base: 0,
    };
    let host = Side::new(alloc, false, Vec::new(alloc))?;
    let remote = Side::new(alloc, false, Vec::new(alloc))?;
    let (link, mut manager) = SharedLink::make(alloc, config, host, remote)?;
    let jobs = workers(alloc, &link, &mut manager)?;
    let logs = thread::map_vec(
        rt,
        jobs,
        &|worker: Worker| -> Log
            requires { IsCallerOf link worker.caller }
        { workers::run(&link, worker) },
    )?;
    let mut to_host = Book::new(alloc)?;
    let mut to_remote = Book::new(alloc)?;
    for log in &logs {
        match log.end {
            End::Host => to_remote.add(&log.sent),
            End::Remote => to_host.add(&log.sent),
        }
    }
    for log in &logs {
        match log.end {
            End::Host => to_host.take(&log.taken),
            End::Remote => to_remote.take(&log.taken),
        }
    }
    let changes = logs
        .iter()
        .filter(|log| log.is_bound && log.is_unbound)
        .count();
    Ok((to_host, to_remote, changes))
}
