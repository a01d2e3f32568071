// The boxes of two clients, one of which ends and one of which fails.
use crate::{Notice, NoticeFault, Notices};
use std::alloc::{AllocError, Global};
use std::sync::Arc;
use std::sync::atomic::{AtomicU64, Ordering};
use std::test::Fail;

/// Writes each number that it is told as a digit behind those before it, and fails at one of them.
#[derive(Drop)]
struct Digits {
    written: Arc<AtomicU64, Global>,
    fails_at: u64,
    failed: u64,
}

impl Notice for Digits {
    ghost use Rattle.std.specs.Prelude.{None};

    ghost told = { λ d. None };

    ghost faults = { λ d. d.failed };

    fn confirmed(&mut self, _session: u32, number: u64) -> Result<(), NoticeFault> {
        let before = self.written.load(Ordering::SeqCst);
        self.written.store(
            before.wrapping_mul(10).wrapping_add(number),
            Ordering::SeqCst,
        );
        if number == self.fails_at {
            self.failed = self.failed.saturating_add(1);
            return Err(NoticeFault);
        }
        Ok(())
    }

    fn faults(&self) -> u64 {
        self.failed
    }
}

/// Writes to this word, and fails at this number.
fn writes_to(word: &Arc<AtomicU64, Global>, fails_at: u64) -> Result<Digits, AllocError> {
    Ok(Digits {
        written: Arc::try_clone(word)?,
        fails_at,
        failed: 0,
    })
}

#[test]
fn each_box_is_told_its_own_numbers(rt: HostRuntime) -> Result<(), Fail> {
    let first = Arc::new(rt.alloc(), AtomicU64::new(0))?;
    let second = Arc::new(rt.alloc(), AtomicU64::new(0))?;
    let mut list: Vec<Option<Box<dyn Notice + Send>>> = Vec::new(rt.alloc());
    list.push(Some(Box::new(rt.alloc(), writes_to(&first, 9)?)?))?;
    list.push(Some(Box::new(rt.alloc(), writes_to(&second, 4)?)?))?;
    assert!(rt; list.len() <= 64);
    let mut notices = Notices::new(list);
    for (client, number) in [(0, 1), (1, 2), (1, 4), (1, 5), (2, 6)] {
        notices.tell(client, 0, number);
    }
    notices.end_client(0);
    notices.tell(0, 0, 7);
    notices.end_client(2);
    assert!(rt; first.load(Ordering::SeqCst) == 1);
    assert!(rt; second.load(Ordering::SeqCst) == 24);
    Ok(())
}
