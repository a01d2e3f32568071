// A table with ample memory.
use crate::{Place, Table};
use cq_block::Block;
use std::test::Fail;

#[test]
fn records_are_placed_and_counted(rt: HostRuntime) -> Result<(), Fail> {
    let seven = Place {
        file: 0,
        at: 128,
        len: 10,
    };
    let eight = Place {
        file: 0,
        at: 163,
        len: 20,
    };
    let mut table = Table::new(rt.alloc());
    assert!(rt; table.live(0) == 0);
    table.set(8, eight)?;
    assert!(rt; table.live(0) == 45);
    table.set(7, seven)?;
    assert_eq!(rt; table.live(0), 80);
    assert_eq!(rt; table.get(7), Some(seven));
    let records = table.records(0)?;
    assert_eq!(rt;
        records.as_slice(),
        [
            Block {
                at: 128,
                len: 35,
                id: 7
            },
            Block {
                at: 163,
                len: 45,
                id: 8
            }
        ]
        .as_slice()
    );
    assert_eq!(rt; table.take(7), Some(seven));
    assert_eq!(rt; table.live(0), 45);
    assert_eq!(rt; table.take(7), None);
    Ok(())
}

#[test]
fn contents_are_noted_and_forgotten(rt: HostRuntime) -> Result<(), Fail> {
    let mut table = Table::new(rt.alloc());
    table.note(3, 4096)?;
    assert_eq!(rt; table.content(3), 4096);
    assert_eq!(rt; table.content(4), 0);
    assert!(rt; table.live(3) == 0);
    table.forget(3);
    assert_eq!(rt; table.content(3), 0);
    Ok(())
}
