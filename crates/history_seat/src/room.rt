// Which history seats are of.
use std::marker::Brand;

/// Names one history in contracts: what is generic over it has seats of one and the same word. A caller picks its members for
/// `Brand`, where it opens the history.
pub trait Room: Send + Sync {
    ghost use Rattle.std.specs.Prelude.{List};
    ghost use Rattle.atomic_table.specs.Seated.{TableId};
    ghost use Rattle.mt_values.specs.declared.command.Entry.{Entry};

    /// The table that has the word.
    ghost table: { TableId };

    /// The entries before the word began to count; their number is the base.
    ghost before: { List Entry };
}

impl Room for Brand {
    ghost use Rattle.std.specs.Prelude.{[]};
    ghost use Rattle.history_seat.specs.Views.{no_table};

    ghost table = { no_table };

    ghost before = { [] };
}
