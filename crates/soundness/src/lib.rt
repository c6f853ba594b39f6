// The test of sound tables (refusal 16): one pass over each table, that stops at the first row that fails.
#![tactic(auto)]

ghost use Rattle.std.specs.Prelude.{◌≡◌, true, ◌&&◌, eqb, ◌≤◌, ◌<◌, ◌%◌, length};
ghost use Rattle.rows.specs.Rows.{entity_at, version_at, edge_at};
ghost use Rattle.rows.specs.Capacity.{most_entities, version_capacity, edge_capacity};
ghost use Rattle.record.specs.Layout.{most_kind};
ghost use Rattle.rules.specs.Trail.{lent, capacity_of, trail_of};
ghost use Rattle.rules.specs.Sound.{all_below, count_sum, sound_counts, sound_previous, sound_version, entity_test, version_test, is_sound};
ghost use Rattle.soundness.specs.Parts.{code_of, Owners, VersionsReady, RowsReady, sorts_fit, sound_codes, coded_edge, coded_test};

use record::Kind;
use rows::{Counts, EdgeNo, EdgeRow, EntityNo, Lent, MOST_VERSIONS, VersionNo, VersionRow};

mod fits;

pub use fits::{declared_sort, source_fits, target_fits, target_sort};

// The previous of a first version.
pub const NONE: u32 = 0xFFFFFFFF;

pub const MOST_ACCEPTED: u32 = 1000000;

// The sorts of a subject and of a signed object.
pub const SUBJECT: u32 = 1;

pub const SIGNED: u32 = 2;

const MOST_KIND: u32 = Kind::Execve as u32;

// Up to so many versions their codes are kept in a short array.
const FEW_VERSIONS: u32 = 2048;

// A hex digit for each kind, from 0 up: its bit 2 * s + t is set if the kind asks for a source with bit s of its code and a target
// with bit t.
const FITS: u32 = 0x282420;

#[tactic(auto, unfolding(rules::specs::Sound::sound_counts, rules::specs::Sound::every))]
fn counts_ok(t: &Lent) -> bool
    ensures { result ≡ sound_counts (capacity_of (lent t.now)) t.now.counts }
{
    let c = t.counts;
    c.entities <= rows::entity_capacity(t.entities)
        && c.versions <= rows::version_capacity(t.versions)
        && c.edges <= rows::edge_capacity(t.edges)
        && c.edges <= c.accepted
        && c.accepted <= MOST_ACCEPTED
}

#[tactic(auto, unfolding(rules::specs::Sound::entity_test, rules::specs::Sound::sound_entity, rules::specs::Sound::every))]
fn entity_ok(t: &Lent, n: EntityNo) -> bool
    ensures { result ≡ entity_test (trail_of t.now.counts (lent t.now)) n.0 }
{
    let r = rows::entity_at(t.entities, n);
    let latest = rows::version_at(t.versions, r.latest);
    r.sort <= SIGNED && r.latest.0 < t.counts.versions && latest.entity == n
}

fn entities_ok(t: &Lent) -> bool
    ensures { result ≡ all_below (entity_test (trail_of t.now.counts (lent t.now))) t.now.counts.entities }
{
    (0..t.counts.entities).all(|k| entity_ok(t, EntityNo(k)))
}

// The row v is of version n.
#[tactic(auto, unfolding(rules::specs::Sound::sound_previous, rules::specs::Sound::may_follow, rules::specs::Sound::every))]
fn previous_ok(versions: &[u32], n: VersionNo, v: VersionRow) -> bool
    requires { n.0 < version_capacity versions.now }
    ensures { result ≡ sound_previous n.0 v (version_at versions.now v.previous.0) }
{
    if v.start == 0 {
        return v.previous.0 == NONE;
    }
    if n.0 <= v.previous.0 {
        return false;
    }
    let p = rows::version_in(versions, v.previous);
    p.entity == v.entity && p.start <= v.start
}

#[tactic(auto, unfolding(rules::specs::Sound::sound_version, rules::specs::Sound::every))]
fn version_ok(c: Counts, versions: &[u32], n: VersionNo, v: VersionRow) -> bool
    requires { n.0 < version_capacity versions.now }
    ensures { result ≡ sound_version c n.0 v (version_at versions.now v.previous.0) }
{
    v.entity.0 < c.entities && v.start <= v.end && v.end <= c.last && previous_ok(versions, n, v)
}

// The code of an entity: twice its number, and 1 if it is a subject.
#[tactic(auto, using(crate::proofs::Sorts::declared_low))]
fn code(entities: &[u32], n: EntityNo) -> u16
    requires { n.0 < most_entities }
    ensures { result ≡ code_of (entity_at entities.now) n.0 }
{
    let r = rows::entity_at(entities, n);
    (2 * n.0 + (declared_sort(r.sort) as u32)) as u16
}

// Writes the code of each version's entity. The counts and slices are held by value: after a write to owners, what is behind t
// would be read again.
fn versions_ok(t: &Lent, owners: &mut [u16]) -> bool
    requires { VersionsReady t.now.counts t.now.entities.now t.now.versions.now owners.old }
    ensures value { result ≡ all_below (version_test (trail_of t.now.counts (lent t.now))) t.now.counts.versions }
    ensures owners { result ≡ true → Owners (trail_of t.now.counts (lent t.now)) t.now.counts.versions owners.new }
{
    let c = t.counts;
    let entities = t.entities;
    let versions = t.versions;
    for k in 0..c.versions {
        let n = VersionNo(k);
        let v = rows::version_in(versions, n);
        if !version_ok(c, versions, n, v) {
            return false;
        }
        owners[k as usize] = code(entities, v.entity);
    }
    true
}

// Whether kind asks for the sorts of a source of code a and a target of code b.
fn sorts_fit(kind: u32, a: u16, b: u16) -> bool
    requires { kind ≤ most_kind }
    ensures { result ≡ sorts_fit kind (a % 2) (b % 2) }
{
    let place = 4 * kind + 2 * ((a % 2) as u32) + ((b % 2) as u32);
    (FITS >> place) % 2 == 1
}

// An edge of row e, whose time may not be below least, from an entity of code a to one of code b. Edges of all kinds are mixed,
// so it does not branch on which kind or sort it has.
#[tactic(auto, using(crate::proofs::Coded::every_six), unfolding(crate::specs::Parts::sound_codes, rules::specs::Sound::may_follow))]
fn codes_ok(last: u32, least: u32, e: EdgeRow, a: u16, b: u16) -> bool
    requires { e.kind ≤ most_kind }
    ensures { result ≡ sound_codes last least e a b }
{
    sorts_fit(e.kind, a, b)
        & (a != b)
        & (least <= e.time)
        & (1 <= e.count)
        & (e.time <= e.last)
        & (e.last <= last)
}

// An edge of row e, whose time may not be below least; owners has the code of each version's entity.
#[tactic(auto, unfolding(crate::specs::Parts::coded_edge, rules::specs::Sound::every))]
fn edge_ok(c: Counts, owners: &[u16], least: u32, e: EdgeRow) -> bool
    requires { c.versions ≤ length owners.now }
    ensures { result ≡ coded_edge c owners.now least e }
{
    e.from.0 < c.versions
        && e.to.0 < c.versions
        && e.kind <= MOST_KIND
        && codes_ok(
            c.last,
            least,
            e,
            owners[e.from.0 as usize],
            owners[e.to.0 as usize],
        )
}

// The least time of the next edge is at first 1, and then the time of the edge before. The sum of the counts takes at most 50 bits.
#[tactic(auto, using(crate::proofs::Edges::edge_loop))]
fn edges_ok(t: &Lent, owners: &[u16]) -> bool
    requires { (t.now.counts.versions ≤ length owners.now) × (t.now.counts.edges ≤ edge_capacity t.now.edges.now) }
    ensures { result ≡ (all_below (coded_test t.now.counts owners.now (edge_at t.now.edges.now)) t.now.counts.edges
        && eqb (count_sum (edge_at t.now.edges.now) t.now.counts.edges) t.now.counts.accepted) }
{
    let c = t.counts;
    let edges = t.edges;
    let mut least: u32 = 1;
    let mut sum: u64 = 0;
    for k in 0..c.edges {
        let e = rows::edge_in(edges, EdgeNo(k));
        if !edge_ok(c, owners, least, e) {
            return false;
        }
        least = e.time;
        sum += e.count as u64;
    }
    sum == (c.accepted as u64)
}

// The versions, and then the edges by the codes that the pass over the versions writes.
#[tactic(auto, unfolding(rules::specs::Sound::is_sound))]
fn rows_ok(t: &Lent, owners: &mut [u16]) -> bool
    requires { RowsReady t.now.counts (lent t.now) owners.old }
    ensures { result ≡ is_sound (capacity_of (lent t.now)) (trail_of t.now.counts (lent t.now)) }
{
    versions_ok(t, owners) && edges_ok(t, owners)
}

// Whether the tables are sound. The codes of the versions' entities take 128 KB of stack; for few versions less of it is
// cleared and used.
#[tactic(auto, unfolding(rules::specs::Sound::is_sound))]
pub fn is_sound(t: &Lent) -> bool
    ensures { result ≡ is_sound (capacity_of (lent t.now)) (trail_of t.now.counts (lent t.now)) }
{
    if !counts_ok(t) || !entities_ok(t) {
        return false;
    }
    if t.counts.versions <= FEW_VERSIONS {
        let mut owners = [0u16; FEW_VERSIONS as usize];
        return rows_ok(t, &mut owners);
    }
    let mut owners = [0u16; MOST_VERSIONS as usize];
    rows_ok(t, &mut owners)
}
