//! What a shelf and those who use it agree on.
use std::marker::Brand;

/// The sums of the base book and the texts of a batch. The caller of `collect_batch` names none: each
/// batch has its own.
pub trait Naming {
    ghost use Rattle.std.specs.Prelude.{ℕ, List};
    ghost use Rattle.cov_model.specs.Held.{Held};

    ghost base: { Held };

    ghost texts: { List (List ℕ) };
}

impl Naming for Brand {
    ghost use Rattle.std.specs.Prelude.{[]};

    ghost base = { record { urls = []; functions = [] } };

    ghost texts = { [] };
}
