// The intake of a forward trace: the earliest of the members'.
#![tactic(auto)]

ghost use Rattle.std.specs.Prelude.{suc, ◌≤◌, ◌<◌, ◌≡◌, length};
ghost use Rattle.std.specs.Option.{MatchOption};
ghost use Rattle.rows.specs.Rows.{version_at, edge_at};
ghost use Rattle.rows.specs.Capacity.{edge_capacity};
ghost use Rattle.rules.specs.Marks.{ones};
ghost use Rattle.rules.specs.Forward.{forward_intake};
ghost use Rattle.marks.specs.Fitted.{trail_in};
ghost use Rattle.intake.specs.Traceable.{Traceable};
ghost use Rattle.intake.specs.Intake.{enters_by, last_intake, enters_marked, up_to_entering, Taken, LeastStart, LeastIntake};

use marks::{Fitted, marked, unmark};
use rows::{EdgeNo, EdgeRow, EntityNo, Lent, VersionNo};
use starts::{mark_starts, start_version};

// Whether edge e enters version s by a time.
#[tactic(auto, unfolding(crate::specs::Intake::enters_by))]
fn enters(s: VersionNo, time: u32, e: EdgeRow) -> bool
    ensures { result ≡ enters_by s.0 time e }
{
    e.to == s && e.time <= time
}

// The intake of version s at a time: the time of the last edge that enters it by then, else its start.
#[tactic(auto, using(crate::proofs::IntakeLoop::intake_last), unfolding(crate::specs::Intake::last_intake))]
fn intake_of(t: &Fitted, s: VersionNo, time: u32) -> u32
    ensures { let T = trail_in t.now in result ≡ last_intake T.version T.edge s.0 time T.counts.edges }
{
    for k in (0..t.trail.counts.edges).rev() {
        let e = rows::edge_in(t.trail.edges, EdgeNo(k));
        if enters(s, time, e) {
            return e.time;
        }
    }
    rows::version_at(t.trail.versions, s).start
}

// The earliest of b and the starts of the pending versions.
fn earliest_start(t: &Lent, pending: &[u8], b: u32) -> u32
    requires { t.now.counts.versions ≡ length pending.now }
    ensures { LeastStart (version_at t.now.versions.now) pending.now b result }
{
    let mut r = b;
    for v in 0..t.counts.versions {
        if marked(pending, v) {
            r = r.min(rows::version_at(t.versions, VersionNo(v)).start);
        }
    }
    r
}

// Whether edge e enters a pending version by a time.
#[tactic(auto, unfolding(crate::specs::Intake::enters_marked))]
fn enters_pending(pending: &[u8], time: u32, e: EdgeRow) -> bool
    ensures { result ≡ enters_marked pending.now time e }
{
    marked(pending, e.to.0) && e.time <= time
}

// The last of d edges that does: a search goes on below the edge that the one before found.
#[tactic(auto, using(crate::proofs::EnteringLoop::entering_last), unfolding(crate::specs::Intake::up_to_entering))]
fn last_entering(edges: &[u32], d: u32, pending: &[u8], time: u32) -> Option<EdgeNo>
    requires { d ≤ edge_capacity edges.now }
    ensures { MatchOption result (up_to_entering (edge_at edges.now) pending.now time d ≡ 0)
        (λ k. up_to_entering (edge_at edges.now) pending.now time d ≡ suc k.0) }
{
    for k in (0..d).rev() {
        let e = rows::edge_in(edges, EdgeNo(k));
        if enters_pending(pending, time, e) {
            return Some(EdgeNo(k));
        }
    }
    None
}

// The version that edge k enters is pending no longer; the earlier of b and the edge's time.
fn take_intake(edges: &[u32], k: EdgeNo, pending: &mut [u8], b: u32) -> u32
    requires { k.0 < edge_capacity edges.now }
    ensures { Taken (edge_at edges.now k.0) pending.old b pending.new result }
{
    let e = rows::edge_in(edges, k);
    unmark(pending, e.to.0);
    b.min(e.time)
}

// The earliest of the last time and the intakes at a time of the pending versions, of which there are at most `most`: the search
// ends where so many are found.
fn earliest_intake(t: &Fitted, pending: &mut [u8], time: u32, most: usize) -> u32
    requires { (t.now.trail.counts.versions ≡ length pending.old) × (ones pending.old ≤ most) }
    ensures { let T = trail_in t.now in LeastIntake T.version T.edge time T.counts.edges pending.old T.counts.last result }
{
    let mut k = t.trail.counts.edges;
    let mut r = t.trail.counts.last;
    for _ in 0..most {
        let Some(last) = last_entering(t.trail.edges, k, pending, time) else {
            return earliest_start(&t.trail, pending, r);
        };
        k = last.0;
        r = take_intake(t.trail.edges, last, pending, r);
    }
    r
}

// The earliest intake of the members, 0 if there are none. The start version of one member alone is compared by number, which is
// faster than by marks. Of sound tables no intake is after the last time.
#[tactic(auto, using(crate::proofs::Found::none_found, crate::proofs::Pending::ones_few))]
pub fn intake(t: &Fitted, members: &[u32], time: u32, work: &mut [u8], seen: &mut [u8]) -> u32
    requires { Traceable (trail_in t.now) members.now × (t.now.trail.counts.versions ≡ length work.old) }
    ensures { result ≡ forward_intake (trail_in t.now) members.now time }
{
    match members {
        [] => 0,
        [u] => intake_of(t, start_version(&t.trail, EntityNo(*u), time), time),
        _ => {
            mark_starts(&t.trail, members, time, work, seen);
            earliest_intake(t, work, time, members.len())
        }
    }
}
