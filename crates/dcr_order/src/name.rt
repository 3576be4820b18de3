use dcr_cell::ClusterName;
use std::marker::Brand;

/// Names the porter that an order began with, over links of this type, of which this stays: what it told of its links and of what
/// it had been handed back, and which bytes greet as a site.
pub trait PorterName<L, R>: ClusterName {
    ghost use Rattle.std.specs.Prelude.{ℕ, List, Option};

    /// The links that the porter had left, where it told them.
    ghost links: { Option (List L) };

    /// What the porter had been handed back, where it told that.
    ghost back: { Option (List (ℕ × R)) };

    /// Of a number, of bytes that a link took first and of bytes that it gave first: they are a greeting of the site of this
    /// number.
    ghost greets: { ℕ → List ℕ → List ℕ → Type 0 };
}

impl<L, R> PorterName<L, R> for Brand {
    ghost use Rattle.std.specs.Prelude.{None};

    ghost links = { None };

    ghost back = { None };

    ghost greets = { λ _ _ _. ⊥ };
}
