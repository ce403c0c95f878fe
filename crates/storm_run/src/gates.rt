//! What a worker passes before each of its calls.
use rp_base::CallerNo;
use split_ring::Caller;

/// Hears of each call of a round before it is made. A test may hold a worker up by it.
pub trait Gate {
    /// This caller is about to make its call of this number: how many it has made in this round, up to 2^64 - 1.
    /// It returns.
    fn pass(&self, caller: CallerNo, call: u64);
}

/// A gate that returns at once.
#[derive(Clone, Copy, Debug)]
pub struct FreeGate;

impl Gate for FreeGate {
    fn pass(&self, _caller: CallerNo, _call: u64) {}
}

/// Passes the gate, and counts the call.
pub(crate) fn pass<G: Gate>(gate: &G, caller: &Caller, calls: &mut u64) {
    gate.pass(caller.number(), *calls);
    *calls = calls.saturating_add(1);
}
