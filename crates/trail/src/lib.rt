// The public calls of the trail, with C names. The caller lends the counts, the tables and the buffers, and each call
// leaves in them what a definition of documents 01 and 02 makes of what was lent, where it refuses too. Beside that equation each
// promise carries what demands 2 and 3 claim of the call, for every list of calls that leaves what it was lent. The counts and tables are
// parameters one by one, as C lends them.
#![tactic(auto)]

ghost use Rattle.std.specs.Prelude.{◌≡◌};
ghost use Rattle.rules.specs.Trail.{tables};
ghost use Rattle.rules.specs.Batch.{left, batch_of};
ghost use Rattle.rules.specs.Backward.{backward_trace, backward_of};
ghost use Rattle.rules.specs.Forward.{forward_trace, forward_of};
ghost use Rattle.rules.specs.KeptLog.{kept_log, kept_log_of};
ghost use Rattle.agreement.specs.Promises.{BatchPromise, BackwardPromise, ForwardPromise, LogPromise};

use rows::{Counts, Lent};
use rules::{BackwardAnswer, BatchAnswer, ForwardAnswer, LogAnswer};

// Takes the records of a file in, in order until the first one refused, and updates the counts where the caller keeps them.
// It needs 1.6 MB of stack.
pub fn slt_batch(
    counts: &mut Counts,
    entities: &mut [u32],
    versions: &mut [u32],
    edges: &mut [u32],
    file: &[u8],
) -> BatchAnswer
    ensures { (left result counts.new (tables entities.new versions.new edges.new)
        ≡ batch_of counts.old (tables entities.old versions.old edges.old) file.now)
        × BatchPromise counts.old (tables entities.old versions.old edges.old) file.now
        (left result counts.new (tables entities.new versions.new edges.new)) }
{
    let b = growth::batch(*counts, entities, versions, edges, file);
    *counts = b.counts;
    b.answer
}

// Marks what the start version of the entity at the time comes from. In a trail grown from a fresh one: what has a causal path to
// the entity by the time.
pub fn slt_backward(
    counts: Counts,
    entities: &[u32],
    versions: &[u32],
    edges: &[u32],
    entity: u32,
    time: u32,
    work: &mut [u8],
    marks: &mut [u8],
) -> BackwardAnswer
    ensures marks_after { backward_trace result work.new marks.new
        ≡ backward_of counts (tables entities.now versions.now edges.now) entity time
        work.old marks.old }
    ensures backward_promise { BackwardPromise counts (tables entities.now versions.now edges.now) entity time
        work.old marks.old (backward_trace result work.new marks.new) }
{
    let t = Lent {
        counts,
        entities,
        versions,
        edges,
    };
    trace::backward(&t, entity, time, work, marks)
}

// Marks what the start version of any of the members at the time leads to, and gives the earliest of their intakes, 0 for an empty
// list. In a trail grown from a fresh one: what a member reached by events accepted after its latest kept intake at or before the time,
// by any event if it has none.
pub fn slt_forward(
    counts: Counts,
    entities: &[u32],
    versions: &[u32],
    edges: &[u32],
    members: &[u32],
    time: u32,
    work: &mut [u8],
    marks: &mut [u8],
) -> ForwardAnswer
    ensures marks_after { forward_trace result work.new marks.new
        ≡ forward_of counts (tables entities.now versions.now edges.now) members.now time
        work.old marks.old }
    ensures forward_promise { ForwardPromise counts (tables entities.now versions.now edges.now)
        members.now time work.old marks.old (forward_trace result work.new marks.new) }
{
    let t = Lent {
        counts,
        entities,
        versions,
        edges,
    };
    trace::forward(&t, members, time, work, marks)
}

// Writes the kept log: an event file of the declarations, the kept events and the signatures.
pub fn slt_kept_log(
    counts: Counts,
    entities: &[u32],
    versions: &[u32],
    edges: &[u32],
    out: &mut [u8],
) -> LogAnswer
    ensures out_after { kept_log result out.new
        ≡ kept_log_of counts (tables entities.now versions.now edges.now) out.old }
    ensures log_promise { LogPromise counts (tables entities.now versions.now edges.now) out.old
        (kept_log result out.new) }
{
    let t = Lent {
        counts,
        entities,
        versions,
        edges,
    };
    kept_log::write_log(&t, out)
}
