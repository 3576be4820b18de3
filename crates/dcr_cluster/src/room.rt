use dcr_cell::ClusterName;
use dcr_lock::Placed;
use dcr_turn::Front;

/// Room for the fronts that come back at the end. It lies behind a lock of its own, which nobody takes before, since a
/// front is handed from thread to thread and never shared.
#[derive(Drop)]
pub(crate) struct FrontRoom<N: ClusterName> {
    pub(crate) fronts: Vec<Front<N>>,
}

impl<N: ClusterName> Placed for FrontRoom<N> {
    ghost use Rattle.std.specs.Prelude.{length};
    ghost use Rattle.dcr_cluster.specs.ClusterModel.{IsFrontRoom};

    ghost belongs = { λ _ room. IsFrontRoom (length N.cluster.owned) room.fronts };
}
