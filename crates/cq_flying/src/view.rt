// What a seat of a client's words knows, the rule of the words, and what each step tells. These types are for the proofs
// alone.
use atomic_table::{Join, Play, Split, TableRule};
use std::collections::LinkedList;

/// The roles that the seat holds; what the looker has written into each word (0 for none, d + 1 for the delivery d); the
/// deliveries that were dropped and those that were seen dropped; the words that the loads of this seat found, each with
/// its place; and those that its compare and exchange found, each with
/// its place. No value of it is made.
pub struct View {
    pub owns: bool,
    pub looks: bool,
    pub names: LinkedList<u64>,
    pub dropped: LinkedList<u64>,
    pub seen: LinkedList<u64>,
    pub looked: LinkedList<(u64, u64)>,
    pub tried: LinkedList<(u64, u64)>,
}

/// The rule of a client's words and views.
pub struct WordRule;

impl TableRule<u8, View, ()> for WordRule {
    ghost use Rattle.cq_flying.specs.Rule.{Flight, newcomer};

    ghost holds = { λ _. Flight };

    ghost first = { λ _. newcomer };
}

/// The looker's store.
pub struct Names;

impl Play<u8, View> for Names {
    ghost use Rattle.cq_flying.specs.Rule.{names_it};

    ghost then = { names_it };
}

/// The owner's load.
pub struct Loads;

impl Play<u8, View> for Loads {
    ghost use Rattle.cq_flying.specs.Rule.{loads_it};

    ghost then = { loads_it };
}

/// The owner's compare and exchange.
pub struct Tries;

impl Play<u8, View> for Tries {
    ghost use Rattle.cq_flying.specs.Rule.{tries_it};

    ghost then = { tries_it };
}

/// The looker's load.
pub struct Looks;

impl Play<u8, View> for Looks {
    ghost use Rattle.cq_flying.specs.Rule.{looks_at};

    ghost then = { looks_at };
}

/// A load by a seat that has both roles.
pub struct Settles;

impl Play<u8, View> for Settles {
    ghost use Rattle.cq_flying.specs.Rule.{settles};

    ghost then = { settles };
}

/// The two roles are parted, and joined at the end.
pub struct Roles;

impl Split<View> for Roles {
    ghost use Rattle.cq_flying.specs.Rule.{owner_of, looker_of};

    ghost left = { owner_of };

    ghost right = { looker_of };
}

impl Join<View> for Roles {
    ghost use Rattle.cq_flying.specs.Rule.{both_of, nobody};

    ghost both = { both_of };

    ghost spent = { nobody };
}
