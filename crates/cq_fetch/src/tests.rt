// A fetch from its beginning to its end.
use crate::{Fetches, Phase};
use cq_table::Place;
use std::test::Fail;

#[test]
fn a_fetch_is_located_read_and_left(rt: HostRuntime) -> Result<(), Fail> {
    let place = Place {
        file: 3,
        at: 128,
        len: 2,
    };
    let mut fetches = Fetches::new(rt.alloc(), 2)?;
    fetches.locate(1, 7, place)?;
    assert_eq!(rt; fetches.phase(0), Phase::Free);
    assert_eq!(rt; fetches.phase(1), Phase::Located { id: 7, place });
    assert_eq!(rt; fetches.take(1).as_slice(), [0, 0].as_slice());
    assert_eq!(rt; fetches.phase(1), Phase::Located { id: 7, place });
    fetches.done(1);
    assert_eq!(rt; fetches.phase(1), Phase::Read { id: 7, place });
    fetches.free(1);
    assert_eq!(rt; fetches.phase(1), Phase::Free);
    Ok(())
}
