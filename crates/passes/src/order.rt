// The orders in which a pass takes its steps, and the passes until one adds no mark.
ghost use Rattle.std.specs.Prelude.{ℕ, ◌≡◌, List, length};
ghost use Rattle.rules.specs.Marks.{Arc, passes};
ghost use Rattle.passes.specs.Followed.{Followed, down, up};
ghost use Rattle.passes.specs.Steps.{StepsBelow, FollowsBelow, Passes, Follows};

// Takes the steps of the numbers below n, the highest first, and says whether one added a mark.
pub fn down<F: Fn(&mut [u8], u32) -> bool>(n: u32, work: &mut [u8], step: F) -> bool
    requires { StepsBelow F.Fn step n (length work.old) }
    ensures { (A : ℕ → List Arc) → FollowsBelow F.Fn step n (length work.old) A → Followed (down A n) work.old result work.new }
{
    let mut changed = false;
    for k in (0..n).rev() {
        changed |= step(work, k);
    }
    changed
}

// The same, the lowest first. Each order has arcs of its own in its promise.
pub fn up<F: Fn(&mut [u8], u32) -> bool>(n: u32, work: &mut [u8], step: F) -> bool
    requires { StepsBelow F.Fn step n (length work.old) }
    ensures { (A : ℕ → List Arc) → FollowsBelow F.Fn step n (length work.old) A → Followed (up A n) work.old result work.new }
{
    let mut changed = false;
    for k in 0..n {
        changed |= step(work, k);
    }
    changed
}

// Makes passes until one adds no mark: each other one adds one, so of n places n are enough.
pub fn close<F: Fn(&mut [u8]) -> bool>(n: u32, work: &mut [u8], pass: F)
    requires { Passes F.Fn pass (length work.old) }
    ensures { (arcs : List Arc) → Follows F.Fn pass (length work.old) arcs → work.new ≡ passes n arcs work.old }
{
    for _ in 0..n {
        if !pass(work) {
            return;
        }
    }
}
