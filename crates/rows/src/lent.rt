// A trail as a caller lends it: its counts, and its three tables.
ghost use Rattle.std.specs.Prelude.{◌≡◌};

use super::Counts;

// Lent to read.
#[derive(Clone, Copy)]
pub struct Lent<'a> {
    pub counts: Counts,
    pub entities: &'a [u32],
    pub versions: &'a [u32],
    pub edges: &'a [u32],
}

// Lent to write.
#[derive(Drop)]
pub struct LentMut<'a> {
    pub counts: Counts,
    pub entities: &'a mut [u32],
    pub versions: &'a mut [u32],
    pub edges: &'a mut [u32],
}

impl<'a> LentMut<'a> {
    // The same, to read.
    pub fn lent(&self) -> Lent<'_>
        ensures counts { result.counts ≡ self.now.counts }
        ensures entities { result.entities.now ≡ self.now.entities.now }
        ensures versions { result.versions.now ≡ self.now.versions.now }
        ensures edges { result.edges.now ≡ self.now.edges.now }
    {
        Lent {
            counts: self.counts,
            entities: self.entities,
            versions: self.versions,
            edges: self.edges,
        }
    }
}
