ghost use Rattle.std.specs.Prelude.{◌≡◌, ◌⊎◌, ◌+◌, ◌*◌, ◌<◌, ◌^◌, IfOk, IfErr, OnOk, None, Some, length};
ghost use Rattle.std.specs.Option.{option_map};
ghost use Rattle.lane_model.specs.Lanes.{holder};
ghost use Rattle.vring_layout.specs.declared.snapshots.SnapshotFault.TheVariants as snapshot_fault;
ghost use Rattle.vring_layout.specs.Sizes.{IsRingAlign};
ghost use Rattle.rp_base.specs.declared.limits.TheConstants.{MESSAGE_MOST};
ghost use Rattle.managed_link.specs.Managed.{IsWholeRing};
ghost use Rattle.link_bench.specs.Benches.{link_in};
ghost use Rattle.link_bench.specs.BenchRings.{IsSnapshotFault, bench_snapshot, lane_base, lane_bytes, lane_words, placed_bytes, snapshot_at, turn_holder};

use crate::benches::Bench;
use name_service::Channel;
use rp_base::{CallerNo, Da, End, MESSAGE_MOST, NoMemory};
use std::alloc::Global;
use vring_layout::{RingWords, Snapshot, SnapshotFault, ring_bytes, vring_size};

impl Bench {
    /// Who has the first turn that is out: that of lane 0's sender, its receiver, then lane 1's.
    pub fn turn_holder(&self) -> Option<CallerNo>
        ensures { result ≡ turn_holder (link_in self.now) }
    {
        if let Some(holder) = self.link.sender_holder(End::Host) {
            return Some(holder);
        }
        if let Some(holder) = self.link.receiver_holder(End::Host) {
            return Some(holder);
        }
        if let Some(holder) = self.link.sender_holder(End::Remote) {
            return Some(holder);
        }
        self.link.receiver_holder(End::Remote)
    }

    /// The channels of the host end, in the order of creation.
    ///
    /// Errors: [`SnapshotFault::StillTurn`] exactly where a caller has the turn of lane 0's receiver,
    /// or out of memory.
    pub fn channels(&mut self, alloc: Global) -> Result<Vec<Channel>, SnapshotFault>
        ensures same { self.new ≡ self.old }
        ensures free { OnOk result (holder (link_in self.old).to_host.receiver ≡ None) }
        ensures channels { IfOk result (λ channels. channels.items ≡ (link_in self.old).to_host.desk.channels) }
        ensures refused { IfErr result (λ why. (option_map snapshot_fault.StillTurn (holder (link_in self.old).to_host.receiver) ≡ Some why)
            ⊎ ((why ≡ snapshot_fault.NoMemory) × (holder (link_in self.old).to_host.receiver ≡ None))) }
    {
        self.link.channels(alloc)
    }

    /// The era of the link and the words of both its lanes as they are. No memory was given to the
    /// link, so its buffers lie from address 0 on.
    ///
    /// Errors: [`SnapshotFault::StillTurn`] exactly where a turn is out, with the holder that
    /// [`Bench::turn_holder`] answers; else only out of memory.
    pub fn snapshot(&mut self, alloc: Global) -> Result<Snapshot, SnapshotFault>
        ensures same { self.new ≡ self.old }
        ensures free { OnOk result (turn_holder (link_in self.old) ≡ None) }
        ensures words { IfOk result (λ snapshot. snapshot ≡ bench_snapshot self.old) }
        ensures whole { IfOk result (λ snapshot. IsWholeRing snapshot.to_host × IsWholeRing snapshot.to_remote) }
        ensures refused { IfErr result (IsSnapshotFault (turn_holder (link_in self.old))) }
    {
        self.link.snapshot(alloc)
    }

    /// The same over buffers that begin at a device address, so many of them on lane 0.
    pub fn snapshot_at(
        &mut self,
        alloc: Global,
        base: Da,
        capacity: u16,
    ) -> Result<Snapshot, SnapshotFault>
        requires { base + MESSAGE_MOST * capacity < 2 ^ 32 }
        ensures same { self.new ≡ self.old }
        ensures free { OnOk result (turn_holder (link_in self.old) ≡ None) }
        ensures words { IfOk result (λ snapshot. snapshot ≡ snapshot_at self.old base capacity) }
        ensures refused { IfErr result (IsSnapshotFault (turn_holder (link_in self.old))) }
    {
        let mut shown = self.snapshot(alloc)?;
        shown.to_host.base = lane_base(base, capacity, 0);
        shown.to_remote.base = lane_base(base, capacity, 1);
        Ok(shown)
    }

    /// The bytes of a lane's ring as it lies in memory over buffers that begin at a device address, its
    /// used ring at a multiple of an alignment: lane 0 to the host, 1 to the remote. No turn is out.
    pub fn placed_bytes(
        &mut self,
        alloc: Global,
        lane: u64,
        at: Da,
        align: u32,
    ) -> Result<Vec<u8>, NoMemory>
        requires align { IsRingAlign align }
        requires free { turn_holder (link_in self.old) ≡ None }
        ensures same { self.new ≡ self.old }
        ensures bytes { IfOk result (λ bytes. bytes.items ≡ placed_bytes self.old.rings lane at align) }
        ensures short { IfOk result (λ bytes. length bytes.items < 2 ^ 32) }
    {
        let mut words = self.lane_words(alloc, lane)?;
        words.base = at;
        let _size = vring_size(words.num, align);
        ring_bytes(alloc, align, &words)
    }

    /// The bytes of a lane's ring of a link that no memory was given: its buffers lie from address 0
    /// on, and its used ring at a multiple of four. Lane 0 is that to the host, 1 to the remote. No turn
    /// is out.
    pub fn ring_bytes(&mut self, alloc: Global, lane: u64) -> Result<Vec<u8>, NoMemory>
        requires { turn_holder (link_in self.old) ≡ None }
        ensures same { self.new ≡ self.old }
        ensures bytes { IfOk result (λ bytes. bytes.items ≡ lane_bytes self.old.rings lane) }
        ensures short { IfOk result (λ bytes. length bytes.items < 2 ^ 32) }
    {
        let words = self.lane_words(alloc, lane)?;
        let _size = vring_size(words.num, 4);
        ring_bytes(alloc, 4, &words)
    }

    /// The words of a lane's rings over buffers that lie from address 0 on.
    fn lane_words(&mut self, alloc: Global, lane: u64) -> Result<RingWords, NoMemory>
        requires { turn_holder (link_in self.old) ≡ None }
        ensures same { self.new ≡ self.old }
        ensures words { IfOk result (λ words. words ≡ lane_words self.old.rings lane (lane_base 0 self.old.rings.to_host.rings.sizes.capacity lane)) }
        ensures whole { IfOk result IsWholeRing }
    {
        match self.snapshot(alloc) {
            Ok(shown) if lane == 0 => Ok(shown.to_host),
            Ok(shown) => Ok(shown.to_remote),
            Err(SnapshotFault::NoMemory) => Err(NoMemory),
            Err(SnapshotFault::StillTurn(_)) => unreachable!(),
        }
    }
}

/// Where a lane's buffers begin: `capacity` of 512 bytes of lane 0 at the base, lane 1's after them.
pub fn lane_base(base: Da, capacity: u16, lane: u64) -> Da
    requires { base + MESSAGE_MOST * capacity < 2 ^ 32 }
    ensures { result ≡ lane_base base capacity lane }
{
    if lane == 0 {
        return base;
    }
    base + MESSAGE_MOST as u32 * u32::from(capacity)
}
