// A box that is told of confirms.
ghost use Rattle.std.specs.Prelude.{◌≡◌, ℕ, List, Option, is_err};
ghost use Rattle.cq_notice.specs.Told.{told_more, faults_after};

/// A box failed. It is told only where its count of faults rose in the call, or stands at its last value.
#[derive(Clone, Copy, Debug, PartialEq, Eq)]
pub struct NoticeFault;

/// Is told of each confirm of one client.
pub trait Notice: Drop {
    /// The sessions and numbers that it was told, the oldest first, where it tells them.
    ghost told: { Self → Option (List (ℕ × ℕ)) };

    /// How many calls failed.
    ghost faults: { Self → ℕ };

    /// The publish of this number in this session is confirmed. It was told that also where it fails.
    fn confirmed(&mut self, session: u32, number: u64) -> Result<(), NoticeFault>
        ensures told { told self.new ≡ told_more session number (told self.old) }
        ensures counted { faults self.new ≡ faults_after (is_err result) (faults self.old) };

    /// How many calls failed so far. It never falls, and stays at its last value.
    fn faults(&self) -> u64
        ensures { result ≡ faults self.now };
}

impl Notice for Box<dyn Notice + Send> {
    ghost told = { λ b. (Notice-box b).told b.value };

    ghost faults = { λ b. (Notice-box b).faults b.value };

    fn confirmed(&mut self, session: u32, number: u64) -> Result<(), NoticeFault> {
        (**self).confirmed(session, number)
    }

    fn faults(&self) -> u64 {
        (**self).faults()
    }
}
