// Backward and forward traces over the lent tables (document 01, "Traces"). Marks stand in the lent buffers alone.
#![tactic(auto)]

ghost use Rattle.std.specs.Prelude.{◌≡◌, [], ◌∷◌, length, Ok};
ghost use Rattle.refusals.specs.Refusals.{first_of};
ghost use Rattle.rules.specs.Trail.{lent};
ghost use Rattle.rules.specs.Backward.{trace_checks, backward_trace, backward_of};
ghost use Rattle.rules.specs.Forward.{forward_intake, forward_work, forward_trace, forward_of};
ghost use Rattle.marks.specs.Fitted.{trail_in};
ghost use Rattle.intake.specs.Traceable.{Traceable};

use intake::intake;
use marks::{Fitted, mark_entities};
use passes::{Start, mark_back, mark_on};
use rows::{EntityNo, Lent};
use rules::{BackwardAnswer, ForwardAnswer};
use starts::{check_trace, mark_starts, start_version};

// The backward trace of entity x, where the checks pass.
#[tactic(auto, using(crate::proofs::Buffers::room))]
fn trace_back(t: &Lent, x: EntityNo, time: u32, work: &mut [u8], marks: &mut [u8]) -> BackwardAnswer
    requires { first_of (trace_checks t.now.counts (lent t.now) (x.0 ∷ []) work.old marks.old) ≡ Ok tt }
    ensures { backward_trace result work.new marks.new ≡ backward_of t.now.counts (lent t.now) x.0 time work.old marks.old }
{
    let start = Start {
        version: start_version(t, x, time),
        time,
    };
    let n = t.counts.versions as usize;
    let fitted = Fitted { trail: *t };
    mark_back(&fitted, &mut work[..n], start);
    let count = mark_entities(t, work, marks);
    BackwardAnswer { refusal: 0, count }
}

// The backward trace of an entity at a time: the marks in the two buffers, and how many entities are marked.
#[tactic(auto, unfolding(rules::specs::Backward::backward_of))]
pub fn backward(
    t: &Lent,
    entity: u32,
    time: u32,
    work: &mut [u8],
    marks: &mut [u8],
) -> BackwardAnswer
    ensures { backward_trace result work.new marks.new ≡ backward_of t.now.counts (lent t.now) entity time work.old marks.old }
{
    match check_trace(t, &[entity], work, marks) {
        Err(r) => BackwardAnswer {
            refusal: u32::from(r),
            count: 0,
        },
        Ok(()) => trace_back(t, EntityNo(entity), time, work, marks),
    }
}

// The versions that a forward trace of the members marks, in a buffer with a byte for each, and the intake.
fn mark_versions(t: &Fitted, members: &[u32], time: u32, work: &mut [u8], seen: &mut [u8]) -> u32
    requires { Traceable (trail_in t.now) members.now × (t.now.trail.counts.versions ≡ length work.old) }
    ensures intake { result ≡ forward_intake (trail_in t.now) members.now time }
    ensures marks { work.new ≡ forward_work (trail_in t.now) members.now time }
{
    let i = intake(t, members, time, work, seen);
    mark_starts(&t.trail, members, time, work, seen);
    mark_on(t, work);
    i
}

// The forward trace of the members, where the checks pass. Until the entities are marked, their bytes say which members were seen.
#[tactic(auto, using(crate::proofs::Buffers::room))]
fn trace_on(
    t: &Lent,
    members: &[u32],
    time: u32,
    work: &mut [u8],
    marks: &mut [u8],
) -> ForwardAnswer
    requires { first_of (trace_checks t.now.counts (lent t.now) members.now work.old marks.old) ≡ Ok tt }
    ensures { forward_trace result work.new marks.new ≡ forward_of t.now.counts (lent t.now) members.now time work.old marks.old }
{
    let n = t.counts.versions as usize;
    let e = t.counts.entities as usize;
    let fitted = Fitted { trail: *t };
    let intake = mark_versions(&fitted, members, time, &mut work[..n], &mut marks[..e]);
    let count = mark_entities(t, work, marks);
    ForwardAnswer {
        refusal: 0,
        count,
        intake,
    }
}

// The forward trace of a list of entities at a time: the marks in the two buffers, how many entities are marked, and the
// earliest intake.
#[tactic(auto, unfolding(rules::specs::Forward::forward_of))]
pub fn forward(
    t: &Lent,
    members: &[u32],
    time: u32,
    work: &mut [u8],
    marks: &mut [u8],
) -> ForwardAnswer
    ensures { forward_trace result work.new marks.new ≡ forward_of t.now.counts (lent t.now) members.now time work.old marks.old }
{
    match check_trace(t, members, work, marks) {
        Err(r) => ForwardAnswer {
            refusal: u32::from(r),
            count: 0,
            intake: 0,
        },
        Ok(()) => trace_on(t, members, time, work, marks),
    }
}
