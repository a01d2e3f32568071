// Marks with ample memory.
use crate::{Marked, Marks};
use cq_table::Place;
use std::test::Fail;

#[test]
fn readers_are_marked_and_found(rt: HostRuntime) -> Result<(), Fail> {
    let mut marks = Marks::new(rt.alloc(), 3)?;
    let place = Place {
        file: 0,
        at: 2178,
        len: 1000,
    };
    marks.mark(1, 7, place);
    assert_eq!(rt; marks.marked(0), None);
    assert_eq!(rt; marks.marked(1), Some(Marked { id: 7, place }));
    assert!(rt; marks.located(7));
    assert!(rt; !marks.located(8));
    assert_eq!(rt; marks.reader_past(0, 3202), Some(1));
    assert_eq!(rt; marks.reader_past(0, 3203), None);
    assert_eq!(rt; marks.reader_past(1, 128), None);
    assert_eq!(rt; marks.lowest_cut(0), 3203);
    assert_eq!(rt; marks.lowest_cut(1), 128);
    marks.clear(1);
    assert_eq!(rt; marks.reader_past(0, 128), None);
    Ok(())
}
