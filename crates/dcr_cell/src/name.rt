use dcr_turn::TurnName;
use std::marker::Brand;

/// Names one cluster, and with it the turn of its calls, so that what its locks keep is said of one graph, one cover and
/// one beginning. A program picks the name where it passes `Brand` to a function that is generic over it.
pub trait ClusterName: TurnName {
    ghost use Rattle.dcr_cell.specs.ClusterId.{ClusterId};

    /// Which cluster it is.
    ghost cluster: { ClusterId };
}

impl ClusterName for Brand {
    ghost use Rattle.dcr_cell.specs.ClusterId.{no_cluster};

    ghost cluster = { no_cluster };
}

/// Names the store that a cluster began with, over disks of this type.
pub trait StoreName<D>: ClusterName {
    ghost use Rattle.std.specs.Prelude.{Option};
    ghost use Rattle.dcr_tape.specs.declared.tape.Store.{Store};

    /// The store, as it was handed to the cluster. None of no cluster.
    ghost first: { Option (Store D) };
}

impl<D> StoreName<D> for Brand {
    ghost use Rattle.std.specs.Prelude.{None};

    ghost first = { None };
}
