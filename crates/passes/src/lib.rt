// Passes over the edges and the version steps, which close marked versions backward and forward.
#![tactic(auto)]

mod back;
mod on;
mod order;

ghost use Rattle.std.specs.Prelude.{[], ◌∷◌};
ghost use Rattle.rules.specs.Marks.{arc};
ghost use Rattle.passes.specs.Followed.{Followed};

pub use back::{Start, mark_back};
use marks::{mark_if, marked};
pub use on::mark_on;
use rows::VersionNo;

// Marks version `to` where `from` is marked, and says whether that is a new mark.
#[tactic(auto, unfolding(crate::specs::Followed::changes, crate::specs::Followed::fires, rules::specs::Marks::pass, rules::specs::Marks::follow))]
fn follow_arc(m: &mut [u8], from: VersionNo, to: VersionNo) -> bool
    ensures { Followed (arc from.0 to.0 ∷ []) m.old result m.new }
{
    let test = marked(m, from.0);
    mark_if(m, to.0, test)
}
