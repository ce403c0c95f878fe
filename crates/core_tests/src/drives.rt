use crate::stores::store_with;
use crash_recover::{Core, DriveOutcome};
use memory_pool::Regions;
use rp_base::CrashKind;
use std::alloc::Global;
use std::test::Fail;

/// A worker that binds an endpoint and ends, and a table at 0x100 with a device for RPMsg.
const RECIPE: &str = "image a\nentry 0\ncode 0\nbind 1024\nhalt\ntable 0x100\nvdev 7 3\n\
    vring any 4096 16\nvring any 4096 8\nend";

/// Whether a core is up, and a step of its actors goes on with something.
fn goes_on(core: &mut Core, alloc: Global) -> bool {
    core.life().is_up() && matches!(core.drive_step(alloc), Ok(DriveOutcome::Stepped))
}

#[test]
fn a_worker_is_driven_in_each_life(rt: HostRuntime) -> Result<(), Fail> {
    let alloc = rt.alloc();
    let mut store = store_with(alloc, "fw", RECIPE)?;
    let mut core = Core::new(alloc, Regions::standard(alloc)?, Vec::new(alloc), 16)?;
    assert!(rt; core.boot(alloc, "fw", &mut store).is_ok());
    assert!(rt; goes_on(&mut core, alloc));
    assert!(rt; core.report(CrashKind::Watchdog).is_ok());
    assert!(rt; core.recover(alloc, &mut store).is_ok());
    assert!(rt; goes_on(&mut core, alloc));
    Ok(())
}
