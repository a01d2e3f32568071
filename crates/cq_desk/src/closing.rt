// The words of open deliveries are closed.
ghost use Rattle.std.specs.Prelude.{◌≡◌, ◌≢◌, ◌<◌, ℕ, []};
ghost use Rattle.cq_bytes.specs.Numbers.{contains};
ghost use Rattle.cq_client.specs.Client.{without};
ghost use Rattle.cq_desk.specs.Desk.{AreOnce, HasWords, numbers_of};

use cq_client::OpenDelivery;
use cq_inbox::Flags;

/// Whether a delivery is one of these.
fn is_open(opens: &[OpenDelivery], delivery: u32) -> bool
    ensures { result ≡ contains (numbers_of opens.now) delivery }
{
    for open in opens {
        if open.delivery == delivery {
            return true;
        }
    }
    false
}

/// Closes the word of a delivery, where it is one of these, which have words. It takes no memory.
pub fn close_open<F: Flags>(flags: &mut F, client: u32, opens: &[OpenDelivery], delivery: u32)
    requires client { client < F.clients flags.old }
    requires words { HasWords (F.opened flags.old client) opens.now }
    requires once { AreOnce (numbers_of opens.now) }
    ensures clients { F.clients flags.new ≡ F.clients flags.old }
    ensures words { HasWords (F.opened flags.new client) (without delivery opens.now) }
    ensures others { (c : ℕ) → c ≢ client → F.opened flags.new c ≡ F.opened flags.old c }
{
    if is_open(opens, delivery) {
        flags.close_word(client, delivery);
    }
}

/// Closes the words of all these deliveries. It takes no memory.
pub fn close_all<F: Flags>(flags: &mut F, client: u32, opens: &[OpenDelivery])
    requires client { client < F.clients flags.old }
    requires words { HasWords (F.opened flags.old client) opens.now }
    requires once { AreOnce (numbers_of opens.now) }
    ensures clients { F.clients flags.new ≡ F.clients flags.old }
    ensures words { HasWords (F.opened flags.new client) [] }
    ensures others { (c : ℕ) → c ≢ client → F.opened flags.new c ≡ F.opened flags.old c }
{
    for open in opens {
        flags.close_word(client, open.delivery);
    }
}
