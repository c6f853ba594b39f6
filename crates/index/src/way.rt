// The way that an edge goes: from the version that it leaves to the entity of the version that it enters.
ghost use Rattle.std.specs.Prelude.{◌≡◌, ◌+◌, ◌*◌, ◌%◌, ◌<◌};
ghost use Rattle.rows.specs.Rows.{version_at, edge_at};
ghost use Rattle.rows.specs.Capacity.{version_capacity, edge_capacity};
ghost use Rattle.index.specs.Way.{way_of};

use rows::{EdgeNo, EntityNo, Lent, VersionNo};

#[derive(Clone, Copy, PartialEq, Eq)]
pub struct Way {
    pub from: VersionNo,
    pub to: EntityNo,
}

impl Way {
    // The way of edge k.
    pub(super) fn of(t: &Lent, k: EdgeNo) -> Way
        requires edge_bound { k.0 < edge_capacity t.now.edges.now }
        requires version_bound { (edge_at t.now.edges.now k.0).to.0 < version_capacity t.now.versions.now }
        ensures { result ≡ way_of (edge_at t.now.edges.now) (version_at t.now.versions.now) k.0 }
    {
        let edge = rows::edge_in(t.edges, k);
        let entered = rows::version_in(t.versions, edge.to);
        Way {
            from: edge.from,
            to: entered.entity,
        }
    }

    // The place of this way among N places. The factors only spread the ways over the places: the answers are the same with any.
    pub(super) fn place<const N: usize>(self) -> usize
        requires { 0 < N }
        ensures { (result ≡ (self.from.0 * 61 + self.to.0 * 977) % N) × (result < N) }
    {
        ((self.from.0 as usize) * 61 + (self.to.0 as usize) * 977) % N
    }
}
