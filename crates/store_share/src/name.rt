//! The name of a row.

use std::marker::Brand;

/// A type that names the cells of one row. The seats of a share, its book and its row carry it, so that a seat can't be
/// used with another share's row.
pub trait RowName {
    ghost use Rattle.std.specs.Prelude.{ℕ, List};

    ghost cells: { List ℕ };
}

impl RowName for Brand {
    ghost use Rattle.std.specs.Prelude.{[]};

    ghost cells = { [] };
}
