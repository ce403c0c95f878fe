use crate::stores::store_of;
use crash_recover::{Core, Reach, Reclaim};
use lane_model::{CallEnd, Wish};
use memory_pool::Regions;
use rp_base::{CallerNo, End};
use std::alloc::Global;
use std::test::Fail;

/// Whether the next caller at the host is this one.
fn joins(core: &mut Core, caller: CallerNo) -> bool {
    let Some(_) = core.link() else {
        return false;
    };
    core.caller(End::Host) == Some(caller)
}

/// Whether this caller begins to bind an endpoint.
fn begins(core: &mut Core, caller: CallerNo) -> bool {
    let Some(_) = core.link() else {
        return false;
    };
    core.begin(caller, Wish::Bind(1024)).is_ok()
}

/// Whether a step of this caller is the one of this number, and its call goes on.
fn goes_on(core: &mut Core, alloc: Global, caller: CallerNo, number: u8) -> bool {
    let Some(_) = core.link() else {
        return false;
    };
    matches!(core.step(alloc, caller), Ok(Reach::At(step)) if step == number)
}

/// Whether a step of this caller ends its call, and an endpoint is bound.
fn binds(core: &mut Core, alloc: Global, caller: CallerNo) -> bool {
    let Some(_) = core.link() else {
        return false;
    };
    matches!(
        core.step(alloc, caller),
        Ok(Reach::Ended(CallEnd::Bound(endpoint))) if endpoint.address == 1024
    )
}

/// Whether the rings are those of a new link, the buffers of lane 1 after the 16 of lane 0.
fn is_shown(core: &mut Core, alloc: Global) -> bool {
    let Some(_) = core.link() else {
        return false;
    };
    match core.snapshot(alloc) {
        Ok(snapshot) => {
            u64::from(snapshot.to_remote.base) == u64::from(snapshot.to_host.base) + 512 * 16
                && snapshot.to_host.avail_idx == 16
                && snapshot.to_remote.avail_idx == 0
        }
        Err(_) => false,
    }
}

/// Whether this caller isn't reclaimed, since the link is live.
fn is_kept(core: &mut Core, caller: CallerNo) -> bool {
    let Some(_) = core.link() else {
        return false;
    };
    matches!(core.reclaim(caller), Ok(Reclaim::StillOpen(_)))
}

#[test]
fn a_caller_of_a_core_binds_an_endpoint(rt: HostRuntime) -> Result<(), Fail> {
    let alloc = rt.alloc();
    let mut store = store_of(alloc, "fw")?;
    let mut core = Core::new(alloc, Regions::standard(alloc)?, Vec::new(alloc), 16)?;
    assert!(rt; core.boot(alloc, "fw", &mut store).is_ok());
    assert!(rt; joins(&mut core, 2));
    assert!(rt; begins(&mut core, 2));
    assert!(rt; goes_on(&mut core, alloc, 2, 1));
    assert!(rt; goes_on(&mut core, alloc, 2, 2));
    assert!(rt; binds(&mut core, alloc, 2));
    assert!(rt; is_shown(&mut core, alloc));
    assert!(rt; is_kept(&mut core, 2));
    Ok(())
}
