ghost use Rattle.std.specs.Prelude.{◌≡◌, ◌≢◌, ◌≤◌, ◌⊎◌, Some, None, Ok, Err, OnOk, OnErr, IfOk, IfErr, IfNone, IfSome, IsErrOf, option_map};
ghost use Rattle.std.specs.Result.{result_err, result_map_both};
ghost use Rattle.rp_io.specs.Causes.{Rose};
ghost use Rattle.rp_io.specs.Images.{ImageAnswer, IsToldFor, IsStoreFault, answer_of};
ghost use Rattle.rp_io.specs.declared.faults.FetchFault.TheVariants as fetch;
ghost use Rattle.proc_state.specs.Lives.{life_after_recovery, recovery_fault};
ghost use Rattle.crash_recover.specs.declared.core_answers.Start.TheVariants as start;
ghost use Rattle.crash_recover.specs.declared.core_faults.CoreFault.TheVariants as fault;
ghost use Rattle.crash_recover.specs.Cores.{IsSoundLoad, load_view, loaded_rings};
ghost use Rattle.crash_recover.specs.CoreBoots.{DidWith, as_unit, core_fault_of_start, in_short, load_in};
ghost use Rattle.link_bench.specs.BenchCrashes.{after_reopen};
ghost use Rattle.link_bench.specs.BenchEnds.{bench_to_reopen};
ghost use Rattle.crash_recover.specs.CoreRecoveries.{after_recovery, asked_text, core_to_reopen, fault_with, link_fault, recovery_of, reload_fault, reopen_fault, same_pair, same_ring, same_rings};

use crate::core_answers::Start;
use crate::core_boots::unit_of;
use crate::core_faults::{CoreFault, StartFault};
use crate::cores::Core;
use fw_load::{Loaded, RingPair};
use link_bench::Bench;
use proc_state::LifeFault;
use resource_table::Ring;
use rp_base::NoMemory;
use rp_io::{FirmwareStore, NoImage, StoreFault, bytes_of, look_up_bytes};
use std::alloc::Global;

impl Core {
    /// Why the core is not recovered, whatever the image: [`LifeFault::NotCrashed`] where it isn't
    /// crashed, then [`LifeFault::RecoveryOff`] where its recovery is off.
    pub fn recovery_fault(&self) -> Option<LifeFault>
        ensures { result ≡ recovery_fault self.now.life }
    {
        self.life.recovery_fault()
    }

    /// Recovers the core with the image that a store has under the name that was booted or handed over.
    /// Where the core's life refuses it, the store is not asked.
    ///
    /// Errors: [`CoreFault::Life`] as [`Core::recovery_fault`] answers, then [`CoreFault::Fetch`] where
    /// the store has no image or failed: the core is as it was then. A name that is no text is
    /// [`rp_io::FetchFault::Missing`]. Then the refusals of [`Core::recover_image`], and
    /// [`CoreFault::NoMemory`]: the core is as it was then, or still crashed with a new caller 0.
    pub fn recover<F: FirmwareStore>(
        &mut self,
        alloc: Global,
        store: &mut F,
    ) -> Result<(), CoreFault>
        ensures recovered { result ≢ Err fault.NoMemory → result ≢ Err (fault.Fetch fetch.Failed)
            → DidWith (λ (found : ImageAnswer). recovery_fault self.old.life ≡ None → IsToldFor (F.images store.old) (asked_text self.old.image) found)
            (λ (found : ImageAnswer). in_short as_unit core_fault_of_start (recovery_of self.old found)) self.new result }
        ensures unchanged { IsErrOf result (fault.Fetch fetch.Failed) → self.new ≡ self.old }
        ensures memory { IsErrOf result fault.NoMemory → (self.new ≡ self.old) ⊎ (self.new ≡ core_to_reopen self.old) }
        ensures unasked { recovery_fault self.old.life ≢ None → store.new ≡ store.old }
        ensures kept { F.images store.new ≡ F.images store.old }
        ensures later { F.faults store.old ≤ F.faults store.new }
        ensures asked { IsErrOf result (fault.Fetch fetch.Failed) → recovery_fault self.old.life ≡ None }
        ensures failed { IsErrOf result (fault.Fetch fetch.Failed) → Rose (F.faults store.old) (F.faults store.new) }
        ensures same { result ≢ Err (fault.Fetch fetch.Failed) → F.faults store.new ≡ F.faults store.old }
    {
        if let Some(fault) = self.recovery_fault() {
            return Err(CoreFault::Life(fault));
        }
        let found = self.look_up_image(alloc, store)?;
        let answer = self.recover_image(alloc, bytes_of(&found))?;
        unit_of(answer)
    }

    /// What a store has under the name that was booted or handed over.
    fn look_up_image<F: FirmwareStore>(
        &self,
        alloc: Global,
        store: &mut F,
    ) -> Result<Result<Vec<u8>, NoImage>, StoreFault>
        ensures told { IfOk result (λ found. IsToldFor (F.images store.old) (asked_text self.now.image) (answer_of found)) }
        ensures kept { F.images store.new ≡ F.images store.old }
        ensures later { F.faults store.old ≤ F.faults store.new }
        ensures same { OnOk result (F.faults store.new ≡ F.faults store.old) }
        ensures fault { IfErr result (λ why. IsStoreFault why (F.faults store.old) (F.faults store.new)) }
    {
        match &self.image {
            Some(name) => look_up_bytes(alloc, store, name.bytes()),
            None => Ok(Err(NoImage::Missing)),
        }
    }

    /// Recovers a core whose life doesn't refuse it, with an image that was found under the name that
    /// was booted or handed over, or wasn't: caller 0 is reclaimed, a new host caller is made at once,
    /// and the link is reopened. The core runs, and its users stay.
    ///
    /// It is refused by [`StartFault::NoImage`] where no image was found, then by [`StartFault::Load`] as
    /// [`fw_load::load`] answers, then by [`StartFault::RingsChanged`] where the rings are other ones than
    /// before: the core is as it was then. Then by [`StartFault::Reopen`], which names who has the turn
    /// that the reclaim of caller 0 needs as [`lane_model::ReopenFault::StillTurn`], and by
    /// [`StartFault::Life`] where no incarnation is left: the core stays crashed, with a new caller 0
    /// where the old one was reclaimed.
    ///
    /// Errors: out of memory, which may come at the load, or after all other tests. The core is as it
    /// was then, or still crashed with a new caller 0.
    #[tactic(auto, unfolding(crate::specs::CoreRecoveries::recovery_of))]
    pub fn recover_image(
        &mut self,
        alloc: Global,
        found: Result<&[u8], NoImage>,
    ) -> Result<Result<Start, StartFault>, NoMemory>
        requires may { recovery_fault self.old.life ≡ None }
        ensures answer { IfOk result (λ answer. answer ≡ (recovery_of self.old (result_map_both (λ image. image.now) (λ why. why) found.entry)).answer) }
        ensures left { OnOk result (self.new ≡ (recovery_of self.old (result_map_both (λ image. image.now) (λ why. why) found.entry)).core) }
        ensures memory { OnErr result ((self.new ≡ self.old) ⊎ (self.new ≡ core_to_reopen self.old)) }
    {
        match self.reload(alloc, found)? {
            Ok(loaded) => self.restart(alloc, loaded),
            Err(fault) => Ok(Err(fault)),
        }
    }

    /// What an image becomes that has the rings of the one before.
    fn reload(
        &self,
        alloc: Global,
        found: Result<&[u8], NoImage>,
    ) -> Result<Result<Loaded, StartFault>, NoMemory>
        ensures refused { IfOk result (λ answer. result_err answer ≡ reload_fault self.now (result_map_both (λ image. image.now) (λ why. why) found.entry)) }
        ensures loaded { IfOk result (λ answer. IfOk answer (λ loaded. load_view loaded ≡ load_in self.now (result_map_both (λ image. image.now) (λ why. why) found.entry))) }
        ensures sound { IfOk result (λ answer. IfOk answer (IsSoundLoad self.now.regions)) }
    {
        match self.load_or_fault(alloc, found)? {
            Ok(loaded) => {
                if self.has_rings(&loaded.rings) {
                    Ok(Ok(loaded))
                } else {
                    Ok(Err(StartFault::RingsChanged))
                }
            }
            Err(fault) => Ok(Err(fault)),
        }
    }

    /// Whether what is loaded has these rings.
    fn has_rings(&self, rings: &Option<RingPair>) -> bool
        ensures { result ≡ same_rings (loaded_rings self.now.loaded) rings.now }
    {
        match &self.loaded {
            Some(loaded) => are_same(&loaded.rings, rings),
            None => rings.is_none(),
        }
    }

    /// Reopens the link of a core, where it has one, and starts the core again with what an image
    /// became, unless its life refuses it: no incarnation is left.
    fn restart(
        &mut self,
        alloc: Global,
        loaded: Loaded,
    ) -> Result<Result<Start, StartFault>, NoMemory>
        requires may { recovery_fault self.old.life ≡ None }
        requires sound { IsSoundLoad self.old.regions loaded }
        ensures refused { IfOk result (λ answer. result_err answer ≡ reopen_fault self.old) }
        ensures answer { IfOk result (λ answer. IfOk answer (λ did. did ≡ start.Running (life_after_recovery self.old.life).life.incarnation)) }
        ensures left { IfOk result (λ answer. OnOk answer (self.new ≡ after_recovery self.old (load_view loaded))) }
        ensures ready { IfOk result (λ answer. OnErr answer (self.new ≡ core_to_reopen self.old)) }
        ensures memory { OnErr result (self.new ≡ core_to_reopen self.old) }
        ensures last { OnErr result (reopen_fault self.old ≡ None) }
    {
        let mut life = self.life.copy();
        let life_fault = life.start_again().err();
        if let Some(fault) = reopen_link(&mut self.bench, alloc, life_fault)? {
            return Ok(Err(fault));
        }
        self.life = life;
        self.actors.restart(loaded.entry);
        self.loaded = Some(loaded);
        Ok(Ok(Start::Running(self.life.incarnation())))
    }
}

/// Reopens the link of a core with a new caller 0, where there is one, unless this keeps the core's life
/// from being recovered.
fn reopen_link(
    link: &mut Option<Bench>,
    alloc: Global,
    life_fault: Option<LifeFault>,
) -> Result<Option<StartFault>, NoMemory>
    ensures refused { IfOk result (λ fault. fault ≡ fault_with link.old life_fault) }
    ensures left { IfOk result (λ fault. IfNone fault (link.new ≡ option_map (λ bench. after_reopen (bench_to_reopen bench)) link.old)) }
    ensures ready { IfOk result (λ fault. IfSome fault (λ _. link.new ≡ option_map bench_to_reopen link.old)) }
    ensures memory { OnErr result (link.new ≡ option_map bench_to_reopen link.old) }
    ensures last { OnErr result (fault_with link.old life_fault ≡ None) }
{
    match link {
        Some(bench) => reopen_bench(bench, alloc, life_fault),
        None => Ok(life_fault.map(StartFault::Life)),
    }
}

/// Reopens a link with a new caller 0, unless this keeps its core's life from being recovered.
fn reopen_bench(
    bench: &mut Bench,
    alloc: Global,
    life_fault: Option<LifeFault>,
) -> Result<Option<StartFault>, NoMemory>
    ensures refused { IfOk result (λ fault. fault ≡ link_fault bench.old life_fault) }
    ensures left { IfOk result (λ fault. IfNone fault (bench.new ≡ after_reopen (bench_to_reopen bench.old))) }
    ensures ready { IfOk result (λ fault. IfSome fault (λ _. bench.new ≡ bench_to_reopen bench.old)) }
    ensures memory { OnErr result (bench.new ≡ bench_to_reopen bench.old) }
    ensures last { OnErr result (link_fault bench.old life_fault ≡ None) }
{
    if let Some(fault) = bench.renew_host() {
        return Ok(Some(StartFault::Reopen(fault)));
    }
    if let Some(fault) = life_fault {
        return Ok(Some(StartFault::Life(fault)));
    }
    match bench.reopen(alloc) {
        Ok(_) => Ok(None),
        Err(_) => Err(NoMemory),
    }
}

/// Whether two pairs of rings, or none, are the same.
fn are_same(first: &Option<RingPair>, second: &Option<RingPair>) -> bool
    ensures { result ≡ same_rings first.now second.now }
{
    match (first, second) {
        (Some(first), Some(second)) => is_same_pair(first, second),
        (None, None) => true,
        _ => false,
    }
}

/// Whether two pairs of rings are the same.
fn is_same_pair(first: &RingPair, second: &RingPair) -> bool
    ensures { result ≡ same_pair first.now second.now }
{
    is_same_ring(&first.to_host, &second.to_host)
        && is_same_ring(&first.to_remote, &second.to_remote)
        && first.base == second.base
        && first.service == second.service
}

/// Whether two rings are the same.
fn is_same_ring(first: &Ring, second: &Ring) -> bool
    ensures { result ≡ same_ring first.now second.now }
{
    first.da == second.da
        && first.align == second.align
        && first.num == second.num
        && first.notify == second.notify
        && first.pa == second.pa
}
