// A map with ample memory.
use crate::NumberMap;
use std::test::Fail;

#[test]
fn values_are_put_found_and_taken(rt: HostRuntime) -> Result<(), Fail> {
    let mut map: NumberMap<u32> = NumberMap::new(rt.alloc());
    assert_eq!(rt; map.get(7).copied(), None);
    map.insert(7, 70)?;
    map.insert(u128::MAX, 1)?;
    map.insert(7, 71)?;
    assert_eq!(rt; map.get(7).copied(), Some(71));
    assert_eq!(rt; map.get(u128::MAX).copied(), Some(1));
    assert_eq!(rt; map.remove(7), Some(71));
    assert_eq!(rt; map.remove(7), None);
    assert_eq!(rt; map.get(u128::MAX).copied(), Some(1));
    Ok(())
}

#[test]
fn a_value_is_replaced_and_pairs_are_listed(rt: HostRuntime) -> Result<(), Fail> {
    let alloc = rt.alloc();
    let mut map: NumberMap<u32> = NumberMap::new(alloc);
    map.insert(7, 70)?;
    assert!(rt; map.get(7).is_some());
    assert_eq!(rt; map.replace(7, 71), 70);
    let pairs = map.pairs(alloc)?;
    assert_eq!(rt; pairs.as_slice(), [(7, 71)].as_slice());
    Ok(())
}
