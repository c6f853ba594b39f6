// The bytes of a name that are marked where it stands in quotes.
ghost use Rattle.std.specs.Prelude.{◌≡◌};
ghost use Rattle.words.specs.Quoted.{is_marked};

pub const QUOTE: u8 = b'"';

pub const BACKSLASH: u8 = b'\\';

#[tactic(auto, unfolding(crate::specs::Quoted::is_marked))]
pub fn is_marked(b: u8) -> bool
    ensures { result ≡ is_marked b }
{
    matches!(b, QUOTE | BACKSLASH)
}
