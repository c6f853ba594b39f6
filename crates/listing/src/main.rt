// The listing program (document 01, "A worked trail"): takes the event file on standard input into a fresh trail and
// prints the counts, the edges and the refusal. The text is rules' listing_of.
#![tactic(auto)]

ghost use Rattle.std.specs.Prelude.{◌<◌, ◌≤◌, length, take, IfOk};
ghost use Rattle.std.specs.Io.KnownBytes.{Consumes, IsAtEnd};

use rows::{Counts, EdgeNo};
use rules::BatchAnswer;
use std::io;
use std::io::Read;

fn print_counts(rt: &impl Print, c: Counts) -> io::Result<()> {
    println!(rt;
        "trail {} {} {} {} {}",
        c.entities, c.versions, c.edges, c.accepted, c.last
    )
}

fn print_edge(rt: &impl Print, edges: &[u32], k: EdgeNo) -> io::Result<()> {
    let e = rows::edge_at(edges, k);
    println!(rt; "edge {} {} {} {}", e.from.0, e.to.0, e.kind, e.time)
}

fn print_edges(rt: &impl Print, edges: &[u32], n: u32) -> io::Result<()> {
    for k in 0..n {
        print_edge(rt, edges, EdgeNo(k))?;
    }
    Ok(())
}

// The record that a refusal names, from 1; 0 before any record: for 1, 2 and 16. The answer has C's number of the refusal, and a
// file here has fewer than 3,000 records.
fn record_number(a: BatchAnswer) -> u32 {
    match a.refusal {
        1 | 2 | 16 => 0,
        _ => a.taken.wrapping_add(1),
    }
}

fn print_refusal(rt: &impl Print, a: BatchAnswer) -> io::Result<()> {
    if a.refusal == 0 {
        return Ok(());
    }
    println!(rt; "refused {} {}", a.refusal, record_number(a))
}

// 2,730 rows in each table.
fn list(rt: &impl Print, file: &[u8]) -> io::Result<()> {
    let mut entities = [0u32; 5460];
    let mut versions = [0u32; 10920];
    let mut edges = [0u32; 16380];
    let b = growth::batch(
        Counts::default(),
        &mut entities,
        &mut versions,
        &mut edges,
        file,
    );
    print_counts(rt, b.counts)?;
    print_edges(rt, &edges, b.counts.edges)?;
    print_refusal(rt, b.answer)
}

// Reads until the buffer is full or the input ends; how many bytes were read. Each read moves the place on by as many as it gave.
fn read_full<R: Read>(input: &mut R, buf: &mut [u8]) -> io::Result<usize>
    ensures within { IfOk result (λ n. n ≤ length buf.old) }
    ensures read { IfOk result (λ n. Consumes (R.remaining input.old) (R.remaining input.new) (take n buf.new)) }
    ensures to_the_end { IfOk result (λ n. n < length buf.old → IsAtEnd (R.remaining input.new)) }
{
    let mut n = 0usize;
    while n < buf.len() {
        let more = input.read(&mut buf[n..])?;
        if more == 0 {
            return Ok(n);
        }
        n += more;
    }
    Ok(n)
}

fn main(rt: HostRuntime) -> io::Result<()> {
    let mut input = [0u8; 32769];
    let n = read_full(&mut rt.stdin(), &mut input)?;
    if 32768 < n {
        return println!(rt; "too long");
    }
    list(&rt, &input[..n])
}
