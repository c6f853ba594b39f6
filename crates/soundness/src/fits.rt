// Which sorts fit a kind, and the sort that an entity is declared with. Sorts and kinds are numbers here, as the rows and the
// bytes of a record hold them, and so are the answers: two of them are compared without a branch, which batches of mixed kinds need.
ghost use Rattle.std.specs.Prelude.{◌≡◌};
ghost use Rattle.rules.specs.Sound.{source_fits, target_fits};
ghost use Rattle.rules.specs.KeptLog.{declared_sort};
ghost use Rattle.soundness.specs.Parts.{source_sort, target_sort};

use crate::SUBJECT;
use record::Kind;

// The kinds whose source is a subject.
const WRITE: u32 = Kind::Write as u32;

const FORK: u32 = Kind::Fork as u32;

// The sort that an entity with this sort is declared with: 1 for a subject, 0 for an object, signed or not.
#[tactic(auto, unfolding(rules::specs::KeptLog::declared_sort, rules::specs::Sound::is_subject))]
pub fn declared_sort(sort: u32) -> u8
    ensures { result ≡ declared_sort sort }
{
    if sort == SUBJECT { 1 } else { 0 }
}

// 1 if a kind asks for a subject as its source, or its target, else 0.
fn source_sort(kind: u32) -> u8
    ensures { result ≡ source_sort kind }
{
    if kind == WRITE || kind == FORK { 1 } else { 0 }
}

pub fn target_sort(kind: u32) -> u8
    ensures { result ≡ target_sort kind }
{
    if kind == WRITE { 0 } else { 1 }
}

// Whether an entity of this sort may be the source of an event of this kind, or the target. Kinds come mixed, so there is one
// test of both and no branch on the kind.
#[tactic(auto, using(crate::proofs::Sorts::source_by))]
pub fn source_fits(kind: u32, sort: u32) -> bool
    ensures { result ≡ source_fits kind sort }
{
    declared_sort(sort) == source_sort(kind)
}

#[tactic(auto, using(crate::proofs::Sorts::target_by))]
pub fn target_fits(kind: u32, sort: u32) -> bool
    ensures { result ≡ target_fits kind sort }
{
    declared_sort(sort) == target_sort(kind)
}
