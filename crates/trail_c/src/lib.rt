// The public calls of the trail under their C names: each export is the call of `trail`, with its clauses and, as C lends them, its
// parameters one by one.
#![tactic(auto)]

ghost use Rattle.std.specs.Prelude.{◌≡◌};
ghost use Rattle.rules.specs.Trail.{tables};
ghost use Rattle.rules.specs.Batch.{left, batch_of};
ghost use Rattle.rules.specs.Backward.{backward_trace, backward_of};
ghost use Rattle.rules.specs.Forward.{forward_trace, forward_of};
ghost use Rattle.rules.specs.KeptLog.{kept_log, kept_log_of};
ghost use Rattle.agreement.specs.Promises.{BatchPromise, BackwardPromise, ForwardPromise, LogPromise};

use rows::Counts;
use rules::{BackwardAnswer, BatchAnswer, ForwardAnswer, LogAnswer};

// Takes the records of a file in.
#[unsafe(no_mangle)]
pub extern "C" fn slt_batch(
    counts: &mut Counts,
    entities: &mut [u32],
    versions: &mut [u32],
    edges: &mut [u32],
    file: &[u8],
) -> BatchAnswer
    ensures { (left result counts.new (tables entities.new versions.new edges.new)
        ≡ batch_of counts.old (tables entities.old versions.old edges.old) file.now)
        × BatchPromise counts.old (tables entities.old versions.old edges.old) file.now
        (left result counts.new (tables entities.new versions.new edges.new)) }
{
    trail::slt_batch(counts, entities, versions, edges, file)
}

// The backward trace of an entity.
#[unsafe(no_mangle)]
pub extern "C" fn slt_backward(
    counts: Counts,
    entities: &[u32],
    versions: &[u32],
    edges: &[u32],
    entity: u32,
    time: u32,
    work: &mut [u8],
    marks: &mut [u8],
) -> BackwardAnswer
    ensures marks_after { backward_trace result work.new marks.new
        ≡ backward_of counts (tables entities.now versions.now edges.now) entity time
        work.old marks.old }
    ensures backward_promise { BackwardPromise counts (tables entities.now versions.now edges.now) entity time
        work.old marks.old (backward_trace result work.new marks.new) }
{
    trail::slt_backward(counts, entities, versions, edges, entity, time, work, marks)
}

// The forward trace of a list of entities.
#[unsafe(no_mangle)]
pub extern "C" fn slt_forward(
    counts: Counts,
    entities: &[u32],
    versions: &[u32],
    edges: &[u32],
    members: &[u32],
    time: u32,
    work: &mut [u8],
    marks: &mut [u8],
) -> ForwardAnswer
    ensures marks_after { forward_trace result work.new marks.new
        ≡ forward_of counts (tables entities.now versions.now edges.now) members.now time
        work.old marks.old }
    ensures forward_promise { ForwardPromise counts (tables entities.now versions.now edges.now)
        members.now time work.old marks.old (forward_trace result work.new marks.new) }
{
    trail::slt_forward(
        counts, entities, versions, edges, members, time, work, marks,
    )
}

// Writes the kept log.
#[unsafe(no_mangle)]
pub extern "C" fn slt_kept_log(
    counts: Counts,
    entities: &[u32],
    versions: &[u32],
    edges: &[u32],
    out: &mut [u8],
) -> LogAnswer
    ensures out_after { kept_log result out.new
        ≡ kept_log_of counts (tables entities.now versions.now edges.now) out.old }
    ensures log_promise { LogPromise counts (tables entities.now versions.now edges.now) out.old
        (kept_log result out.new) }
{
    trail::slt_kept_log(counts, entities, versions, edges, out)
}
