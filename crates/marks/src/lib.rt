// Buffers of marks: 1 where a version or an entity is marked, else 0. Past the end nothing is marked.
#![tactic(auto)]

mod fitted;
mod owners;

ghost use Rattle.std.specs.Prelude.{◌≡◌, length, get_or, set, replicate, eqb};
ghost use Rattle.marks.specs.MarkedIf.{MarkedIf};

pub use fitted::Fitted;
pub use owners::mark_entities;

// The byte at i, 0 past the end.
fn byte_at(m: &[u8], i: u32) -> u8
    ensures { result ≡ get_or m.now i 0 }
{
    m.get(i as usize).copied().unwrap_or(0)
}

// Writes b at i; past the end it changes nothing. No clause of a slice's `get_mut` says what it leaves, so i is tested.
fn put_byte(m: &mut [u8], i: u32, b: u8)
    ensures { m.new ≡ set m.old i b }
{
    if (i as usize) < m.len() {
        m[i as usize] = b;
    }
}

// Whether place i is marked.
pub fn marked(m: &[u8], i: u32) -> bool
    ensures { result ≡ eqb (get_or m.now i 0) 1 }
{
    byte_at(m, i) == 1
}

// Marks place i.
pub fn mark(m: &mut [u8], i: u32)
    ensures { m.new ≡ set m.old i 1 }
{
    put_byte(m, i, 1);
}

// Takes the mark at i away.
pub fn unmark(m: &mut [u8], i: u32)
    ensures { m.new ≡ set m.old i 0 }
{
    put_byte(m, i, 0);
}

// Takes all marks away.
pub fn clear(m: &mut [u8])
    ensures { m.new ≡ replicate (length m.old) 0 }
{
    m.fill(0);
}

// Marks place i where the test holds, and says whether that is a new mark. It writes in any case, without a branch on
// the test.
pub fn mark_if(m: &mut [u8], i: u32, test: bool) -> bool
    ensures { MarkedIf test i m.old result m.new }
{
    let old = byte_at(m, i);
    let new = if test { 1 } else { old };
    put_byte(m, i, new);
    test & (old != 1)
}
