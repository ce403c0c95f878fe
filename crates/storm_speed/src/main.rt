// Traffic over a shared link beside the same traffic over two bounded channels of the kit's crossbeam_channel, timed in turns in one process.
// How many messages went each way, and how many microseconds each kind of traffic took, goes to standard error; bench/storm puts that together.
#![tactic(auto)]

mod channels;
mod links;
mod work;

use crate::work::Work;
use std::io;
use std::time::Duration;

/// How many messages each end sends in all where no number is given.
const FEW: u32 = 310;

/// How often each kind of traffic is timed.
const ROUNDS: u8 = 5;

fn main(rt: HostRuntime) -> io::Result<()> {
    let all = match std::env::args(&rt)?.nth(1) {
        Some(word) => word.as_str().parse::<u32>().unwrap_or(FEW),
        None => FEW,
    };
    for each in [1u8, 4, 31] {
        let work = Work::of(each, all);
        for _ in 0..ROUNDS {
            let link = links::time(&rt, rt.alloc(), work, &[1; 512]);
            let channel = channels::time::<HostRuntime, 512>(&rt, rt.alloc(), work);
            tell(&rt, work, 512, link, channel)?;
            let link = links::time(&rt, rt.alloc(), work, &[1; 16]);
            let channel = channels::time::<HostRuntime, 16>(&rt, rt.alloc(), work);
            tell(&rt, work, 16, link, channel)?;
        }
    }
    println!(rt; "timed")
}

/// Writes one round of both kinds.
fn tell<P: Eprint>(
    rt: &P,
    work: Work,
    length: u32,
    link: Option<Duration>,
    channel: Option<Duration>,
) -> io::Result<()> {
    let Work { each, count } = work;
    let (link, channel) = (micros(link), micros(channel));
    eprintln!(rt; "{each} {length} {count} {link} {channel}")
}

/// A time in microseconds, 0 where there is none.
fn micros(time: Option<Duration>) -> u128 {
    match time {
        Some(time) => time.as_micros(),
        None => 0,
    }
}
