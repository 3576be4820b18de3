// What a command answers that asks neither the door nor the disk.
use dcr_base::Status;
use dcr_journal::Closed;
use dcr_node::World;

/// How a command ended, the run where there was one, and all nodes after that where `nodes` made it.
#[derive(Drop)]
pub(crate) struct Answer(
    pub(crate) Status,
    pub(crate) Option<Closed>,
    pub(crate) Option<World>,
);
