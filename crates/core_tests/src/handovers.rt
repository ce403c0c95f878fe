use crate::stores::store_with;
use crash_recover::Core;
use memory_pool::Regions;
use rp_base::LifeState;
use rp_io::MemoryStore;
use std::alloc::Global;
use std::test::Fail;

/// A worker that ends at once.
const RECIPE: &str = "image a\nentry 0\ncode 0\nhalt\nend";

/// Whether the first block of memory is that at address 0, and there are no more than a few.
fn shows_memory(core: &Core) -> bool {
    match core.part(0) {
        Some((da, bytes)) => da == 0 && bytes.len() == 65_536 && core.part(9).is_none(),
        None => false,
    }
}

/// Whether the core is handed over with the image of the store.
fn is_handed_over(core: &mut Core, alloc: Global, store: &mut MemoryStore) -> bool {
    core.handover(alloc, "fw", store).is_ok()
}

/// Whether a boot attaches to the core, and its one user leaves it again.
fn is_attached_and_detached(core: &mut Core, alloc: Global, store: &mut MemoryStore) -> bool {
    core.boot(alloc, "fw", store).is_ok()
        && core.detach().is_ok()
        && core.life().state() == LifeState::Detached
}

#[test]
fn a_core_is_handed_over_attached_and_detached(rt: HostRuntime) -> Result<(), Fail> {
    let alloc = rt.alloc();
    let mut store = store_with(alloc, "fw", RECIPE)?;
    let mut core = Core::new(alloc, Regions::standard(alloc)?, Vec::new(alloc), 16)?;
    assert!(rt; is_handed_over(&mut core, alloc, &mut store));
    assert!(rt; is_attached_and_detached(&mut core, alloc, &mut store));
    assert!(rt; shows_memory(&core));
    Ok(())
}
