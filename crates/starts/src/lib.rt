// The start version of a trace, and those of the members of a list.
#![tactic(auto)]

mod checks;

ghost use Rattle.std.specs.Prelude.{◌≡◌, length};
ghost use Rattle.rows.specs.Rows.{version_at};
ghost use Rattle.rules.specs.Trail.{lent, trail_of};
ghost use Rattle.rules.specs.Start.{start_from, start_of};
ghost use Rattle.rules.specs.Marks.{seeded};
ghost use Rattle.rules.specs.Forward.{starts_of};
ghost use Rattle.starts.specs.EntityList.{StartMarked};

pub use checks::{any_undeclared, check_trace};
use marks::{clear, mark, mark_if};
use rows::{EntityNo, Lent, VersionNo};

// From version v through previous to the first with start ≤ time, in at most n steps.
#[tactic(auto, using(crate::proofs::StartLoop::start_stop, crate::proofs::StartLoop::start_next, crate::proofs::StartLoop::start_end))]
fn start_from(versions: &[u32], time: u32, n: u32, v: VersionNo) -> VersionNo
    ensures { result.0 ≡ start_from (version_at versions.now) time n v.0 }
{
    let mut w = v;
    for _ in 0..n {
        let row = rows::version_at(versions, w);
        if row.start <= time {
            return w;
        }
        w = row.previous;
    }
    w
}

// The start version of entity x at a time.
#[tactic(auto, unfolding(rules::specs::Start::start_of))]
pub fn start_version(t: &Lent, x: EntityNo, time: u32) -> VersionNo
    ensures { result.0 ≡ start_of (trail_of t.now.counts (lent t.now)) x.0 time }
{
    let latest = rows::entity_at(t.entities, x).latest;
    start_from(t.versions, time, t.counts.versions, latest)
}

// Marks the start version of member u, where u was not seen before.
fn mark_start(t: &Lent, u: u32, time: u32, work: &mut [u8], seen: &mut [u8])
    ensures { StartMarked (trail_of t.now.counts (lent t.now)) time u work.old seen.old work.new seen.new }
{
    if mark_if(seen, u, true) {
        let s = start_version(t, EntityNo(u), time);
        mark(work, s.0);
    }
}

// Marks the start versions of the members, and those alone. The chain of no entity is walked twice.
#[tactic(auto, using(crate::proofs::StartsLoop::marks_end))]
pub fn mark_starts(t: &Lent, members: &[u32], time: u32, work: &mut [u8], seen: &mut [u8])
    ensures { work.new ≡ seeded (length work.old) (starts_of (trail_of t.now.counts (lent t.now)) members.now time) }
{
    clear(work);
    clear(seen);
    for u in members {
        mark_start(t, *u, time, work, seen);
    }
}
