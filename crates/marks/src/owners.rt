// The entities of marked versions, and how many they are.
ghost use Rattle.std.specs.Prelude.{◌≤◌, ◌<◌, ◌≡◌, ◌^◌, length, take};
ghost use Rattle.rows.specs.Rows.{version_at};
ghost use Rattle.rows.specs.Capacity.{version_capacity};
ghost use Rattle.rules.specs.Trail.{lent, trail_of};
ghost use Rattle.rules.specs.Marks.{marks_below, ones};
ghost use Rattle.marks.specs.Owners.{owner_marked, owners_marked, EntitiesMarked};

use super::{clear, mark_if, marked};
use rows::{Lent, VersionNo, version_in};

// Marks the entity of version k where that is marked.
#[tactic(auto, unfolding(crate::specs::Owners::owner_marked))]
fn mark_owner(versions: &[u32], work: &[u8], marks: &mut [u8], k: u32)
    requires { k < version_capacity versions.now }
    ensures { marks.new ≡ owner_marked (version_at versions.now) work.now k marks.old }
{
    let row = version_in(versions, VersionNo(k));
    let test = marked(work, k);
    mark_if(marks, row.entity.0, test);
}

// Of the n versions in use, which the table's length does not tell.
#[tactic(auto, using(crate::proofs::EntityMarks::owners_next), unfolding(crate::specs::Owners::owners_marked))]
fn mark_owners(versions: &[u32], n: u32, work: &[u8], marks: &mut [u8])
    requires { n ≤ version_capacity versions.now }
    ensures { marks.new ≡ owners_marked (version_at versions.now) work.now n marks.old }
{
    for k in 0..n {
        mark_owner(versions, work, marks, k);
    }
}

// How many places are marked.
#[tactic(auto, using(crate::proofs::EntityMarks::ones_counted))]
fn count(m: &[u8]) -> u32
    requires { length m.now < 2 ^ 32 }
    ensures { result ≡ ones m.now }
{
    m.iter().filter(|b| **b == 1).count() as u32
}

// In a buffer with a byte for each entity, marks those with a marked one of n versions, and counts them.
#[tactic(auto, using(crate::proofs::EntityMarks::owners_below))]
fn mark_below(versions: &[u32], n: u32, work: &[u8], marks: &mut [u8]) -> u32
    requires { (n ≤ version_capacity versions.now) × (length marks.old < 2 ^ 32) }
    ensures count { result ≡ ones marks.new }
    ensures marks { marks.new ≡ marks_below (version_at versions.now) work.now n (length marks.old) }
{
    clear(marks);
    mark_owners(versions, n, work, marks);
    count(marks)
}

// The same in the lent buffers, of which what stands past the counts stays.
#[tactic(auto, using(crate::proofs::EntityMarks::entities_marked))]
pub fn mark_entities(t: &Lent, work: &[u8], marks: &mut [u8]) -> u32
    requires { (t.now.counts.versions ≤ version_capacity t.now.versions.now) × (t.now.counts.versions ≤ length work.now)
        × (t.now.counts.entities ≤ length marks.old) }
    ensures { EntitiesMarked (trail_of t.now.counts (lent t.now)) (take t.now.counts.versions work.now) marks.old result marks.new }
{
    let c = t.counts;
    let n = c.versions as usize;
    let e = c.entities as usize;
    mark_below(t.versions, c.versions, &work[..n], &mut marks[..e])
}
