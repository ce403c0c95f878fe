use super::*;
use std::test::Fail;

#[test]
fn a_dump_of_one_byte(rt: HostRuntime) -> Result<(), Fail> {
    let part = Part {
        da: 0x10,
        bytes: &[0xaa],
    };
    let dump = write_dump(rt.alloc(), 0, &[part])?;
    assert_eq!(rt; dump.len(), 85);
    assert_eq!(rt; dump.last(), Some(&0xaa));
    Ok(())
}
