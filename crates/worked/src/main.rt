// The worked trail of document 01 through the calls: the batch, P2 to P8, and the kept log's length.
#![tactic(auto)]

use rows::{Counts, Lent};
use std::io;

// The worked file.
const FILE: [u8; 140] = [
    83, 76, 84, 1, 0, 0, 0, 0, 0, 0, 0, 0, 0, 0, 0, 0, 0, 0, 0, 0, 0, 1, 1, 0, 0, 0, 0, 0, 0, 0, 0,
    0, 0, 0, 2, 0, 0, 0, 0, 0, 0, 0, 0, 0, 0, 0, 3, 0, 0, 0, 0, 0, 0, 0, 0, 0, 1, 0, 0, 0, 1, 0, 0,
    0, 1, 0, 0, 0, 2, 0, 1, 0, 2, 0, 0, 0, 2, 0, 0, 0, 1, 0, 0, 0, 1, 0, 0, 0, 3, 0, 0, 0, 2, 0, 1,
    0, 2, 0, 0, 0, 4, 0, 0, 0, 1, 0, 3, 0, 1, 0, 0, 0, 5, 0, 0, 0, 2, 0, 1, 0, 2, 0, 0, 0, 6, 0, 0,
    0, 1, 0, 3, 0, 1, 0, 0, 0, 7, 0, 0, 0,
];

fn say_marks(rt: &impl Print, marks: [u8; 4]) -> io::Result<()> {
    let [a, b, c, d] = marks;
    println!(rt; " marks {a} {b} {c} {d}")
}

// One backward trace, with its answer and marks.
fn backward(rt: &impl Print, t: &Lent, entity: u32, time: u32) -> io::Result<()> {
    let mut work = [0u8; 5];
    let mut marks = [0u8; 4];
    let a = trace::backward(t, entity, time, &mut work, &mut marks);
    print!(rt;
        "backward {entity} at {time}: refusal {} count {}",
        a.refusal, a.count
    )?;
    say_marks(rt, marks)
}

// One forward trace of a list of entities; the word names them.
fn forward(rt: &impl Print, t: &Lent, word: &str, members: &[u32], time: u32) -> io::Result<()> {
    let mut work = [0u8; 5];
    let mut marks = [0u8; 4];
    let a = trace::forward(t, members, time, &mut work, &mut marks);
    print!(rt;
        "{word} at {time}: refusal {} count {} intake {}",
        a.refusal, a.count, a.intake
    )?;
    say_marks(rt, marks)
}

fn traces(rt: &impl Print, t: &Lent) -> io::Result<()> {
    for time in [1, 4, 5, 6] {
        backward(rt, t, 2, time)?;
    }
    forward(rt, t, "forward 3", &[3], 0)?;
    forward(rt, t, "forward 1", &[1], 4)?;
    forward(rt, t, "forward 1", &[1], 5)?;
    forward(rt, t, "forward 0", &[0], 4)?;
    forward(rt, t, "forward 1 2", &[1, 2], 6)
}

fn log(rt: &impl Print, t: &Lent) -> io::Result<()> {
    let mut out = [0u8; 104];
    let a = kept_log::write_log(t, &mut out);
    println!(rt; "kept log: refusal {} length {}", a.refusal, a.length)
}

fn main(rt: HostRuntime) -> io::Result<()> {
    let mut entities = [0u32; 16];
    let mut versions = [0u32; 32];
    let mut edges = [0u32; 48];
    let b = growth::batch(
        Counts::default(),
        &mut entities,
        &mut versions,
        &mut edges,
        &FILE,
    );
    let a = b.answer;
    println!(rt;
        "batch: refusal {} taken {} tried {}",
        a.refusal, a.taken, a.tried
    )?;
    let t = Lent {
        counts: b.counts,
        entities: &entities,
        versions: &versions,
        edges: &edges,
    };
    traces(&rt, &t)?;
    log(&rt, &t)
}
