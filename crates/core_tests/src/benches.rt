ghost use Rattle.std.specs.Prelude.{IfSome};
ghost use Rattle.lane_model.specs.Conditions.{IsConfig};

use channel_bus::Side;
use crash_recover::{Bench, Reach};
use lane_model::{CallEnd, LinkConfig, Wish};
use rp_base::{CallerNo, End, Message, is_ring_size};
use std::alloc::Global;
use std::test::Fail;

/// Rings of four and of two entries, and a book of three messages.
fn small_config() -> Option<LinkConfig>
    ensures { IfSome result (λ config. IsConfig config) }
{
    if !is_ring_size(4) || !is_ring_size(2) {
        return None;
    }
    Some(LinkConfig {
        num0: 4,
        num1: 2,
        book: 3,
        first: 1,
        base: 0,
    })
}

/// A bench over these rings, with the caller 0 at the host and 1 at the remote.
fn small_bench(alloc: Global) -> Result<Bench, Fail> {
    let config = small_config().ok_or("sizes of rings")?;
    let host = Side::new(alloc, false, Vec::new(alloc))?;
    let remote = Side::new(alloc, false, Vec::new(alloc))?;
    let mut bench = Bench::new(alloc, config, host, remote)?;
    let _ = bench.caller(End::Host);
    let _ = bench.caller(End::Remote);
    Ok(bench)
}

/// Makes a call step by step: how many steps it had, and how it ended.
fn finish(bench: &mut Bench, caller: CallerNo, wished: Wish) -> Option<(u8, CallEnd)> {
    if bench.begin(caller, wished).is_err() {
        return None;
    }
    for count in 1..8 {
        match bench.step(caller) {
            Ok(Reach::At(step)) if step == count => {}
            Ok(Reach::Ended(end)) => return Some((count, end)),
            Ok(Reach::At(_) | Reach::Limit) | Err(_) => return None,
        }
    }
    None
}

/// Whether caller 1 sends these bytes, as message 0.
fn sends(bench: &mut Bench, bytes: &[u8]) -> bool {
    let Some(message) = Message::of(bytes) else {
        return false;
    };
    matches!(
        finish(bench, 1, Wish::Send(message)),
        Some((7, CallEnd::Sent(0)))
    )
}

#[test]
fn a_bench_goes_step_by_step(rt: HostRuntime) -> Result<(), Fail> {
    let mut bench = small_bench(rt.alloc())?;
    assert!(rt; sends(&mut bench, &[7, 5, 9]));
    Ok(())
}
