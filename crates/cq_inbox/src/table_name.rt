// Names for tables of atomic words.
use std::marker::Brand;

/// Names the tables of some lanes or words, one for each client. It has no call: a contract reads which tables are
/// meant.
pub trait TableName {
    ghost use Rattle.std.specs.Prelude.{List};
    ghost use Rattle.atomic_table.specs.Seated.{TableId};

    /// The tables of the clients, in order.
    ghost tables: { List TableId };
}

impl TableName for Brand {
    ghost use Rattle.std.specs.Prelude.{[]};

    ghost tables = { [] };
}
