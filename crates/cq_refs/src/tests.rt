// Counts with ample memory.
use crate::Refs;
use std::test::Fail;

#[test]
fn counts_are_set_and_fall(rt: HostRuntime) -> Result<(), Fail> {
    let mut refs = Refs::new(rt.alloc());
    assert_eq!(rt; refs.get(7), 0);
    refs.set(7, 2)?;
    assert!(rt; refs.get(7) == 2);
    assert_eq!(rt; refs.drop_one(7), 1);
    assert!(rt; refs.get(7) == 1);
    assert_eq!(rt; refs.drop_one(7), 0);
    assert_eq!(rt; refs.get(7), 0);
    refs.set(8, u32::MAX)?;
    refs.set(8, 0)?;
    assert_eq!(rt; refs.get(8), 0);
    Ok(())
}
