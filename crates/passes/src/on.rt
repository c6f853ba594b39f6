// Closing marked versions forward: along edges and from previous versions, the lowest number first.
// The buffer has no byte for the number that says that there is no previous version, so none is marked there.
#![tactic(auto, unfolding(crate::specs::TraceArcs::step_on, crate::specs::TraceArcs::target_on, crate::specs::TraceArcs::edge_on, crate::specs::Followed::changes, crate::specs::Followed::fires, rules::specs::Marks::pass, rules::specs::Marks::follow))]

ghost use Rattle.std.specs.Prelude.{◌≤◌, ◌<◌, ◌≡◌, length};
ghost use Rattle.rows.specs.Rows.{version_at, edge_at};
ghost use Rattle.rows.specs.Capacity.{version_capacity, edge_capacity};
ghost use Rattle.rules.specs.Trail.{none};
ghost use Rattle.marks.specs.Fitted.{trail_in};
ghost use Rattle.passes.specs.Followed.{Followed};
ghost use Rattle.passes.specs.TraceArcs.{step_on, target_on, edge_on, first_on, later_on, marked_on};

use super::follow_arc;
use super::order::{close, up};
use marks::{Fitted, mark_if, marked};
use rows::{EdgeNo, Lent, VersionNo};

// Along edge k.
fn target_at(edges: &[u32], work: &mut [u8], k: EdgeNo) -> bool
    requires { k.0 < edge_capacity edges.now }
    ensures { Followed (target_on (edge_at edges.now k.0)) work.old result work.new }
{
    let e = rows::edge_in(edges, k);
    follow_arc(work, e.from, e.to)
}

// Along edge k, and the step to the version that it enters: one write for both, and none where that version is marked.
fn edge_on(t: &Lent, work: &mut [u8], k: EdgeNo) -> bool
    requires { (k.0 < edge_capacity t.now.edges.now) × (length work.old ≤ none) }
    ensures { Followed (edge_on (version_at t.now.versions.now) (edge_at t.now.edges.now k.0)) work.old result work.new }
{
    let e = rows::edge_in(t.edges, k);
    if marked(work, e.to.0) {
        return false;
    }
    let p = rows::version_at(t.versions, e.to).previous;
    let a = marked(work, e.from.0);
    let b = marked(work, p.0);
    mark_if(work, e.to.0, a | b)
}

// The step to version v from its previous.
fn step_on(versions: &[u32], work: &mut [u8], v: VersionNo) -> bool
    requires { (v.0 < version_capacity versions.now) × (length work.old ≤ none) }
    ensures { Followed (step_on (version_at versions.now v.0).previous.0 v.0) work.old result work.new }
{
    let p = rows::version_in(versions, v).previous;
    follow_arc(work, p, v)
}

// The first pass: with the step at each edge it finds all marks of grown tables.
fn first_on(t: &Fitted, work: &mut [u8]) -> bool
    requires { length work.old ≤ none }
    ensures { Followed (first_on (trail_in t.now)) work.old result work.new }
{
    let t = &t.trail;
    let n = t.counts.versions;
    let d = t.counts.edges;
    let a = up(d, work, |m, k| edge_on(t, m, EdgeNo(k)));
    let b = up(n, work, |m, v| step_on(t.versions, m, VersionNo(v)));
    a | b
}

// A later pass, which follows fewer arcs than the first: it reads no version at an edge.
fn later_on(t: &Fitted, work: &mut [u8]) -> bool
    requires { length work.old ≤ none }
    ensures { Followed (later_on (trail_in t.now)) work.old result work.new }
{
    let t = &t.trail;
    let n = t.counts.versions;
    let d = t.counts.edges;
    let a = up(d, work, |m, k| target_at(t.edges, m, EdgeNo(k)));
    let b = up(n, work, |m, v| step_on(t.versions, m, VersionNo(v)));
    a | b
}

// Marks what a forward trace marks from the versions marked in a buffer with a byte for each version. Where the first pass
// adds no mark no later one does.
pub fn mark_on(t: &Fitted, work: &mut [u8])
    requires { t.now.trail.counts.versions ≡ length work.old }
    ensures { work.new ≡ marked_on (trail_in t.now) work.old }
{
    let n = t.trail.counts.versions;
    if first_on(t, work) {
        close(n, work, |m| later_on(t, m));
    }
}
