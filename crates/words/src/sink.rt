// What takes the bytes of a line one part after another: an output that they are written to, or a count of the room that they leave.
ghost use Rattle.std.specs.Prelude.{ℕ, List};
ghost use Rattle.words.specs.Sink.{SinkLaws};

pub trait Sink {
    // There is room for bytes.
    ghost has_room: { Self → List ℕ → Type 0 };

    // What bytes leave.
    ghost takes: { Self → List ℕ → Self → Type 0 };

    ghost laws: { SinkLaws has_room takes };

    fn put(&mut self, bytes: &[u8])
        requires { has_room self.old bytes.now }
        ensures { takes self.old bytes.now self.new };
}
