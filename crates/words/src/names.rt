// The names in a lent text, one to a line.
ghost use Rattle.std.specs.Prelude.{◌≡◌, ◌<◌, ◌==◌, length};
ghost use Rattle.std.specs.List.{position};
ghost use Rattle.words.specs.Names.{line_end};
ghost use Rattle.words.specs.Index.{Indexed};
ghost use Rattle.words.specs.Lent.{IsNamed, name_of};

use rows::EntityNo;

// A lent text, and where its lines begin, each lent by itself: a name is a part of the text, and may be kept longer than the places.
// It has no invariant: a call asks for the lines that it reads, and not for all of them.
#[derive(Clone, Copy)]
pub struct Names<'text, 'starts> {
    pub text: &'text [u8],
    pub starts: &'starts [u64],
}

impl<'text> Names<'text, '_> {
    // The name of an entity: the part of the text that is its line, without the line's end.
    pub fn name(&self, i: EntityNo) -> &'text [u8]
        requires { IsNamed self.now i.0 }
        ensures { result.now ≡ name_of self.now i.0 }
    {
        let k = i.0 as usize;
        let start = self.starts[k] as usize;
        let next = self.starts[k + 1] as usize;
        &self.text[start..next - 1]
    }
}

// Where the first line of a text ends, if its end is there.
fn first_end(text: &[u8]) -> Option<usize>
    ensures { result ≡ position (λ b. b == line_end) text.now }
{
    text.iter().position(|b| *b == b'\n')
}

// The places where the first n lines begin, and the place after the last of them; how many of n lines there are.
pub fn index_lines(text: &[u8], n: u32, starts: &mut [u64]) -> u32
    requires { n < length starts.old }
    ensures { Indexed text.now n result starts.new }
{
    let mut at: usize = 0;
    for found in 0..n {
        starts[found as usize] = at as u64;
        let Some(length) = first_end(&text[at..]) else {
            return found;
        };
        at += length + 1;
    }
    starts[n as usize] = at as u64;
    n
}
