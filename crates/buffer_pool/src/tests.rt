use super::*;
use std::test::Fail;

#[test]
fn buffers_come_in_order(rt: HostRuntime) -> Result<(), Fail> {
    let mut list = FreeList::new(rt.alloc(), 3)?;
    assert_eq!(rt; list.left(), 3);
    let Some(zero) = list.pop() else {
        return Err(Fail::new("there is a first buffer"));
    };
    let Some(one) = list.pop() else {
        return Err(Fail::new("there is a second buffer"));
    };
    assert_eq!(rt; (zero.id, one.id, list.left()), (0, 1, 1));
    assert_eq!(rt; one.message.bytes().len(), 0);
    list.push(zero);
    list.unpop(one);
    for id in [1, 2, 0] {
        assert_eq!(rt; list.pop().map(|buffer| buffer.id), Some(id));
    }
    assert!(rt; list.pop().is_none());
    assert_eq!(rt; list.left(), 0);
    Ok(())
}
