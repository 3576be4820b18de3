use dcr_base::{Disk, Gate};
use dcr_cell::StoreName;
use dcr_cluster::Cluster;
use dcr_serve::Numbered;
use dcr_turn::{Pass, TurnName};
use std::marker::Model;

/// The pass of a session that has seen and done nothing, as it waits at the desk for a link. Contracts see the pass.
#[derive(Drop)]
pub(crate) struct Seat<N: TurnName> {
    pass: Pass<N>,
}

impl<N: TurnName> Model for Seat<N> {
    ghost use Rattle.dcr_turn.specs.PassValue.{PassValue};
    ghost use Rattle.dcr_serving.specs.SeatModel.{seat_of, HasDoneNothing};

    ghost Value = { PassValue };

    ghost view = { seat_of };

    ghost invariant = { HasDoneNothing };
}

impl<N: TurnName> Seat<N> {
    ghost use Rattle.std.specs.Prelude.{◌≡◌, ◌≢◌};
    ghost use Rattle.dcr_serving.specs.Serving.{new_pass};

    pub(crate) fn new(pass: Pass<N>) -> Seat<N>
        requires { pass ≡ new_pass pass.session }
        ensures { result ≡ pass }
    {
        Seat { pass }
    }

    /// Meets another pass, which is of another session.
    pub(crate) fn meet<D: Disk, G: Gate + Drop>(
        &mut self,
        cluster: &Cluster<D, G, N>,
        other: &mut Pass<N>,
    )
    where
        N: StoreName<D>,
        ensures same { self.new ≡ self.old }
        ensures apart { other.old.session ≢ self.old.session }
    {
        cluster.learn(other, &mut self.pass);
    }

    /// The pass, which was not used.
    pub(crate) fn into_pass(self) -> Pass<N>
        ensures same { result ≡ self }
        ensures new { result ≡ new_pass self.session }
    {
        let Seat { pass } = self;
        pass
    }
}

impl<N: TurnName> Numbered for Seat<N> {
    ghost number = { λ seat. seat.session };

    /// The number of the session.
    fn number(&self) -> u32 {
        self.pass.session()
    }
}
