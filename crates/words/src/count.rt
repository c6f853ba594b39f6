// The room that is left after lines. `left` is one more than the room: 0 where they do not fit.
ghost use Rattle.std.specs.Prelude.{◌≡◌, ◌-◌, length};
ghost use Rattle.words.specs.Lines.{event_line, itself_line};
ghost use Rattle.words.specs.Lent.{IsNamed, name_of};
ghost use Rattle.words.specs.Laws.{room_laws};
ghost use Rattle.words.specs.Room.{IsCounted, Lessened};

use crate::lines::{put_event_line, put_itself_line};
use crate::names::Names;
use crate::sink::Sink;
use record::Event;
use rows::EntityNo;

#[derive(Drop)]
struct Room {
    left: u64,
}

impl Sink for Room {
    ghost has_room = { IsCounted };

    ghost takes = { Lessened };

    ghost laws = { room_laws };

    fn put(&mut self, bytes: &[u8]) {
        self.left = self.left.saturating_sub(bytes.len() as u64);
    }
}

pub fn left_line(left: u64, names: &Names, e: Event) -> u64
    requires source { IsNamed names.now e.source.0 }
    requires target { IsNamed names.now e.target.0 }
    ensures { result ≡ left - length (event_line (name_of names.now) e) }
{
    let mut room = Room { left };
    put_event_line(&mut room, names, e);
    room.left
}

pub fn left_itself(left: u64, names: &Names, u: EntityNo) -> u64
    requires { IsNamed names.now u.0 }
    ensures { result ≡ left - length (itself_line (name_of names.now) u.0) }
{
    let mut room = Room { left };
    put_itself_line(&mut room, names, u);
    room.left
}
