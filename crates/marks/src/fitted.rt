// A trail that has no more versions and edges in use than its tables have rows.
ghost use Rattle.std.specs.Prelude.{◌≤◌};
ghost use Rattle.rows.specs.Capacity.{version_capacity, edge_capacity};

use rows::Lent;

#[derive(Clone, Copy)]
pub struct Fitted<'a> {
    pub trail: Lent<'a>,
    pub ghost versions_in: { trail.counts.versions ≤ version_capacity trail.versions.now },
    pub ghost edges_in: { trail.counts.edges ≤ edge_capacity trail.edges.now },
}
