ghost use Rattle.std.specs.Prelude.{◌≡◌, []};

use lin_rows::Row;

/// What is known of the values with which nodes are left: rows over a node's sizes and then the
/// values of an exit.
pub trait Results {
    ghost use Rattle.std.specs.Prelude.{ℕ, List};
    ghost use Rattle.lin_rows.specs.declared.row.Row.{Row};

    ghost known: { Self → ℕ → ℕ → List Row };

    /// The rows that hold where a node was left by an exit.
    fn rows(&self, node: u32, exit: u32) -> &[Row]
        ensures { result.now ≡ known self.now node exit };
}

/// Nothing is known.
#[derive(Drop)]
pub struct NoResults;

impl Results for NoResults {
    ghost known = { λ _ node exit. [] };

    fn rows(&self, _node: u32, _exit: u32) -> &[Row] {
        &[]
    }
}
