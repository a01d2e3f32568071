// What hands requests to a node.
ghost use Rattle.std.specs.Prelude.{◌≡◌, ◌≢◌, ◌<◌, ℕ, List, IfSome};
ghost use Rattle.cq_inbox.specs.declared.request.Request.{Request};
ghost use Rattle.cq_inbox.specs.Requests.{IsRequest};
ghost use Rattle.cq_inbox.specs.Inbox.{HandsOut, Appends};

use crate::Request;

/// The requests of clients, each client's in the order in which it made them.
pub trait Inbox {
    /// How many clients it was made for.
    ghost clients: { Self → ℕ };

    /// Whether it tells what it holds. It depends on the type alone.
    ghost tells_held: { Type 0 };

    /// What it holds of each client, the oldest first, where it tells.
    ghost held: { Self → ℕ → List Request };

    /// Whether it tells what was taken of it. It depends on the type alone.
    ghost tells_taken: { Type 0 };

    /// What was taken of each client, the oldest first, where it tells.
    ghost taken: { Self → ℕ → List Request };

    /// Takes the client's next request, where one is there.
    fn next(&mut self, client: u32) -> Option<Request>
        requires { client < clients self.old }
        ensures clients { clients self.new ≡ clients self.old }
        ensures request { IfSome result IsRequest }
        ensures held { tells_held → HandsOut result (held self.old client) (held self.new client) }
        ensures taken { tells_taken → Appends result (taken self.old client) (taken self.new client) }
        ensures other_held { (c : ℕ) → c ≢ client → held self.new c ≡ held self.old c }
        ensures other_taken { (c : ℕ) → c ≢ client → taken self.new c ≡ taken self.old c };
}
