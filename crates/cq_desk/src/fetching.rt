// The oldest request of a client.
ghost use Rattle.std.specs.Prelude.{◌≡◌, ◌≢◌, ◌<◌, ◌≤◌, ◌++◌, ℕ, List, [], length, None, is_some};
ghost use Rattle.cq_inbox.specs.declared.request.Request.{Request};
ghost use Rattle.cq_desk.specs.Desk.{OthersKept, kept_of, listed};

use crate::Kept;
use cq_inbox::Inbox;

/// Sees to it that a client's oldest request is kept: where none is, the inbox's next is taken. False exactly where the
/// client has none. It takes no memory.
pub fn fetch<I: Inbox>(kept: &mut Kept, inbox: &mut I, client: u32) -> bool
    requires client { client < length kept.old }
    requires serves { length kept.old ≤ I.clients inbox.old }
    ensures there { result ≡ is_some (kept_of kept.new client) }
    ensures clients { I.clients inbox.new ≡ I.clients inbox.old }
    // Its requests, the kept one before those that are held and behind those that were taken, are as they were.
    ensures held { I.tells_held → listed (kept_of kept.new client) ++ I.held inbox.new client
        ≡ listed (kept_of kept.old client) ++ I.held inbox.old client }
    ensures none { I.tells_held → kept_of kept.new client ≡ None → I.held inbox.new client ≡ [] }
    ensures taken { I.tells_taken → (asked : List Request) → asked ++ listed (kept_of kept.old client) ≡ I.taken inbox.old client
        → asked ++ listed (kept_of kept.new client) ≡ I.taken inbox.new client }
    ensures others { OthersKept client kept.old kept.new }
    ensures other_held { (c : ℕ) → c ≢ client → I.held inbox.new c ≡ I.held inbox.old c }
    ensures other_taken { (c : ℕ) → c ≢ client → I.taken inbox.new c ≡ I.taken inbox.old c }
{
    if kept.get(client).is_some() {
        return true;
    }
    match inbox.next(client) {
        Some(request) => {
            kept.put(client, request);
            true
        }
        None => false,
    }
}
