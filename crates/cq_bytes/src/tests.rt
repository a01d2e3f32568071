// Fields at the edges of a slice, and the values with ample memory.
use crate::{
    Body, Queues, QueuesError, put_u32, put_u64, put_u128, take_u16, take_u32, take_u64, take_u128,
};
use std::test::Fail;

/// Whether each field of these bytes, which count from 0 to 16, is read big-endian.
fn is_big_endian(bytes: &[u8]) -> bool {
    take_u16(bytes, 1) == Some(0x0102)
        && take_u32(bytes, 13) == Some(0x0d0e_0f10)
        && take_u64(bytes, 0) == Some(0x0001_0203_0405_0607)
        && take_u128(bytes, 1) == Some(0x0102_0304_0506_0708_090a_0b0c_0d0e_0f10)
}

/// Whether no field is read past the end of 17 bytes.
fn ends(bytes: &[u8]) -> bool {
    take_u32(bytes, 14).is_none()
        && take_u64(bytes, usize::MAX).is_none()
        && take_u128(bytes, 2).is_none()
}

#[test]
fn fields_are_big_endian(rt: HostRuntime) {
    let bytes: [u8; 17] = [0, 1, 2, 3, 4, 5, 6, 7, 8, 9, 10, 11, 12, 13, 14, 15, 16];
    assert!(rt; is_big_endian(&bytes) && ends(&bytes));
}

/// Whether these fields stand side by side.
fn holds(bytes: &[u8], small: u32, middle: u64, large: u128) -> bool {
    take_u32(bytes, 1) == Some(small)
        && take_u64(bytes, 5) == Some(middle)
        && take_u128(bytes, 13) == Some(large)
}

#[test]
fn what_is_put_is_taken(rt: HostRuntime) {
    let mut bytes = [0xaa; 32];
    put_u32(&mut bytes, 1, 0x0102_0304);
    put_u64(&mut bytes, 5, u64::MAX - 1);
    put_u128(&mut bytes, 13, 1 << 127);
    assert!(rt; holds(&bytes, 0x0102_0304, u64::MAX - 1, 1 << 127));
    assert!(rt; bytes[0] == 0xaa && bytes[29] == 0xaa);
}

#[test]
fn bodies_are_made(rt: HostRuntime) -> Result<(), Fail> {
    let alloc = rt.alloc();
    let copied = Body::copy(alloc, b"hello")?;
    assert!(rt; copied.bytes() == b"hello".as_slice());
    let given = Body::from_vec(vec![in alloc; 1, 2]?);
    assert!(rt; given.bytes() == [1, 2].as_slice());
    Ok(())
}

/// What is said to these queues, one after another: 3, one out of range, 3 again, the last one.
fn pushes(queues: &mut Queues) -> [Result<(), QueuesError>; 4] {
    [
        queues.push(3),
        queues.push(256),
        queues.push(3),
        queues.push(255),
    ]
}

#[test]
fn queues_are_made(rt: HostRuntime) {
    let mut queues = Queues::new(rt.alloc());
    let said = pushes(&mut queues);
    assert!(rt;
        said == [
            Ok(()),
            Err(QueuesError::Range),
            Err(QueuesError::Repeated),
            Ok(())
        ]
    );
    assert!(rt; queues.numbers() == [3, 255].as_slice());
}
