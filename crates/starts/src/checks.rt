// Refusals 16, 5 and 14 of a trace.
ghost use Rattle.std.specs.Prelude.{◌≡◌};
ghost use Rattle.refusals.specs.Refusals.{first_of};
ghost use Rattle.rules.specs.Trail.{lent};
ghost use Rattle.rules.specs.Backward.{trace_checks};
ghost use Rattle.starts.specs.EntityList.{any_undeclared};

use refusals::Refusal;
use rows::Lent;

// Whether one of the members is none of e entities.
pub fn any_undeclared(e: u32, members: &[u32]) -> bool
    ensures { result ≡ any_undeclared e members.now }
{
    members.iter().any(|u| e <= *u)
}

// The first of 16, 5 and 14 that holds.
#[tactic(auto, using(crate::proofs::MemberChecks::trace_checked))]
pub fn check_trace(t: &Lent, members: &[u32], work: &[u8], marks: &[u8]) -> Result<(), Refusal>
    ensures { result ≡ first_of (trace_checks t.now.counts (lent t.now) members.now work.now marks.now) }
{
    if !soundness::is_sound(t) {
        return Err(Refusal::Unsound);
    }
    if any_undeclared(t.counts.entities, members) {
        return Err(Refusal::Undeclared);
    }
    if work.len() < (t.counts.versions as usize) || marks.len() < (t.counts.entities as usize) {
        return Err(Refusal::BufferShort);
    }
    Ok(())
}
