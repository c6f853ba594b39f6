// Closing marked versions backward: against edges and to previous versions, the highest number first.
#![tactic(auto, unfolding(crate::specs::TraceArcs::step_back, crate::specs::TraceArcs::source_back, crate::specs::TraceArcs::edge_back, crate::specs::Followed::changes, crate::specs::Followed::fires, rules::specs::Marks::pass, rules::specs::Marks::follow))]

ghost use Rattle.std.specs.Prelude.{◌<◌, ◌≡◌, true, length, get_or, eqb};
ghost use Rattle.rows.specs.Rows.{version_at, edge_at};
ghost use Rattle.rows.specs.Capacity.{version_capacity, edge_capacity};
ghost use Rattle.rules.specs.Backward.{is_followed};
ghost use Rattle.marks.specs.Fitted.{trail_in};
ghost use Rattle.passes.specs.Followed.{Followed};
ghost use Rattle.passes.specs.TraceArcs.{step_back, source_back, edge_back, first_back, later_back, marked_back};

use super::follow_arc;
use super::order::{close, down};
use marks::{Fitted, clear, mark, mark_if, marked};
use rows::{EdgeNo, EdgeRow, Lent, VersionNo};
use soundness::NONE;

// Where a backward trace begins: at a version, at a time.
#[derive(Clone, Copy)]
pub struct Start {
    pub version: VersionNo,
    pub time: u32,
}

impl Start {
    // Whether edge e is followed: into the start version by the time alone.
    #[tactic(auto, unfolding(rules::specs::Backward::is_followed))]
    fn follows(self, e: EdgeRow) -> bool
        ensures { result ≡ is_followed self.version.0 self.time e }
    {
        e.to != self.version || e.time <= self.time
    }
}

// Against edge e.
fn source_back(work: &mut [u8], start: Start, e: EdgeRow) -> bool
    ensures { Followed (source_back start.version.0 start.time e) work.old result work.new }
{
    start.follows(e) && follow_arc(work, e.to, e.from)
}

// The same of edge k, which adds nothing where the version that it enters is not marked.
fn source_at(edges: &[u32], work: &mut [u8], start: Start, k: EdgeNo) -> bool
    requires { k.0 < edge_capacity edges.now }
    ensures { Followed (source_back start.version.0 start.time (edge_at edges.now k.0)) work.old result work.new }
{
    let e = rows::edge_in(edges, k);
    marked(work, e.to.0) && source_back(work, start, e)
}

// Against edge e, and the step of the version that it enters, which is marked.
fn enter_back(versions: &[u32], work: &mut [u8], start: Start, e: EdgeRow) -> bool
    requires { eqb (get_or work.old e.to.0 0) 1 ≡ true }
    ensures { Followed (edge_back (version_at versions.now) start.version.0 start.time e) work.old result work.new }
{
    let a = source_back(work, start, e);
    let p = rows::version_at(versions, e.to).previous;
    let b = p.0 != NONE && mark_if(work, p.0, true);
    a | b
}

// The same of edge k, which adds nothing where the version that it enters is not marked.
fn edge_back(t: &Lent, work: &mut [u8], start: Start, k: EdgeNo) -> bool
    requires { k.0 < edge_capacity t.now.edges.now }
    ensures { Followed (edge_back (version_at t.now.versions.now) start.version.0 start.time (edge_at t.now.edges.now k.0))
        work.old result work.new }
{
    let e = rows::edge_in(t.edges, k);
    marked(work, e.to.0) && enter_back(t.versions, work, start, e)
}

// From version v to its previous.
fn step_back(versions: &[u32], work: &mut [u8], v: VersionNo) -> bool
    requires { v.0 < version_capacity versions.now }
    ensures { Followed (step_back v.0 (version_at versions.now v.0).previous.0) work.old result work.new }
{
    let p = rows::version_in(versions, v).previous;
    p.0 != NONE && follow_arc(work, v, p)
}

// The first pass: with the step at each edge it finds all marks of grown tables.
fn first_back(t: &Fitted, work: &mut [u8], start: Start) -> bool
    ensures { Followed (first_back (trail_in t.now) start.version.0 start.time) work.old result work.new }
{
    let t = &t.trail;
    let n = t.counts.versions;
    let d = t.counts.edges;
    let a = down(d, work, |m, k| edge_back(t, m, start, EdgeNo(k)));
    let b = down(n, work, |m, v| step_back(t.versions, m, VersionNo(v)));
    a | b
}

// A later pass, which follows fewer arcs than the first: it reads no version at an edge.
fn later_back(t: &Fitted, work: &mut [u8], start: Start) -> bool
    ensures { Followed (later_back (trail_in t.now) start.version.0 start.time) work.old result work.new }
{
    let t = &t.trail;
    let n = t.counts.versions;
    let d = t.counts.edges;
    let a = down(d, work, |m, k| source_at(t.edges, m, start, EdgeNo(k)));
    let b = down(n, work, |m, v| step_back(t.versions, m, VersionNo(v)));
    a | b
}

// In a buffer with a byte for each version, marks what a backward trace from the start marks. Where the first pass adds no
// mark no later one does.
pub fn mark_back(t: &Fitted, work: &mut [u8], start: Start)
    requires { t.now.trail.counts.versions ≡ length work.old }
    ensures { work.new ≡ marked_back (trail_in t.now) start.version.0 start.time }
{
    clear(work);
    mark(work, start.version.0);
    if first_back(t, work, start) {
        close(t.trail.counts.versions, work, |m| later_back(t, m, start));
    }
}
