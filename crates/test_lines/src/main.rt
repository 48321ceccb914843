// The command program's lines, cut at every place: standard input is answered as one piece, and then again in pieces of each length from 1 to 200 bytes. It writes the answers to the whole,
// and how many of the other runs answer the same bytes. A read or a write that fails ends it with that error.
#![tactic(auto)]

ghost use Rattle.std.specs.Prelude.{◌≡◌, ℕ, ◌+◌, ◌<◌, ◌≤◌, [], length, take, replicate, MatchResult, IfOk, IfErr, OnOk};
ghost use Rattle.records.specs.Layout.{image_of};
ghost use Rattle.inspection.specs.Outcome.{Leaves};
ghost use Rattle.lookup.specs.Start.{start_image};
ghost use Rattle.texts.specs.Put.{Written};
ghost use Rattle.commands.specs.Session.{fed_text, fed_image, fed_kept, input_text, input_image, input_kept};

use commands::pieces::{answer_lines, finish, keep};
use lookup::start::start;
use std::io::{self, Read};

// The output has no room for the longest answer: so many bytes of answers went before.
#[derive(Clone, Copy)]
struct Full {
    at: usize,
}

// Answers a text that comes in pieces of so many bytes, until all is answered or the output has no room for the longest answer. How many bytes the answers are.
fn feed(
    text: &[u8],
    size: usize,
    img: &mut [u8],
    buf: &mut [u8],
    out: &mut [u8],
) -> Result<usize, Full>
    requires { (1 ≤ size) × (80 + size ≤ length buf.old) × (16911 ≤ length out.old) }
    ensures within { MatchResult result (λ at. at ≤ length out.old) (λ e. e.at ≤ length out.old) }
    ensures text { IfOk result (λ at. Written out.old out.new 0 at (input_text 256 512 (image_of img.old) text.now)) }
    ensures image { OnOk result (Leaves img.old img.new (input_kept 256 512 (image_of img.old) text.now) (input_image 256 512 (image_of img.old) text.now)) }
    ensures full { IfErr result (λ e. (length out.old < e.at + 16911) × ((k : ℕ) × (k ≤ length text.now) × Written out.old out.new 0 e.at (fed_text 256 512 (image_of img.old) [] (take k text.now)) × Leaves img.old img.new (fed_kept 256 512 (image_of img.old) [] (take k text.now)) (fed_image 256 512 (image_of img.old) [] (take k text.now)))) }
{
    let mut kept = Some(0);
    let mut at: usize = 0;
    for piece in text.chunks(size) {
        let have = kept.unwrap_or(0);
        let end = have + piece.len();
        buf[have..end].copy_from_slice(piece);
        let t = answer_lines(buf, 0, end, kept.is_none(), img, out, at);
        at = t.at;
        if out.len() - at < 16911 {
            return Err(Full { at });
        }
        kept = keep(buf, t.from, end, t.long);
    }
    Ok(finish(buf, kept, img, out, at))
}

// A run on a new map.
fn run(
    text: &[u8],
    size: usize,
    img: &mut [u8],
    buf: &mut [u8],
    out: &mut [u8],
) -> Result<usize, Full>
    requires { (1 ≤ size) × (80 + size ≤ length buf.old) × (16911 ≤ length out.old) }
    ensures within { MatchResult result (λ at. at ≤ length out.old) (λ e. e.at ≤ length out.old) }
    ensures text { IfOk result (λ at. Written out.old out.new 0 at (input_text 256 512 (start_image 256 512 (replicate (length (image_of img.old)) 0)) text.now)) }
{
    words::clear(img);
    let _ = start(img, 256, 512);
    feed(text, size, img, buf, out)
}

// Whether a run in pieces answers the whole text, as the first run did.
fn agrees(
    text: &[u8],
    size: usize,
    img: &mut [u8],
    buf: &mut [u8],
    first: &[u8],
    out: &mut [u8],
) -> bool
    requires { (1 ≤ size) × (80 + size ≤ length buf.old) × (16911 ≤ length out.old) }
{
    match run(text, size, img, buf, out) {
        Ok(many) => first == &out[..many],
        Err(_) => false,
    }
}

// How many of the lengths from 1 to 200 agree.
fn count(text: &[u8], img: &mut [u8], buf: &mut [u8], first: &[u8], out: &mut [u8]) -> u64
    requires { (280 ≤ length buf.old) × (16911 ≤ length out.old) }
{
    let mut agreed: u64 = 0;
    for size in 1..=200 {
        if agrees(text, size, img, buf, first, out) {
            agreed += 1;
        }
    }
    agreed
}

// The answers to the whole, and how many lengths agree.
fn report(
    rt: &impl Print,
    text: &[u8],
    img: &mut [u8],
    buf: &mut [u8],
    first: &mut [u8],
    out: &mut [u8],
) -> io::Result<()>
    requires { (60080 ≤ length buf.old) × (16911 ≤ length first.old) × (16911 ≤ length out.old) }
{
    let many = match run(text, 60000, img, buf, first) {
        Ok(many) => many,
        Err(full) => full.at,
    };
    rt.write_all(&first[..many])?;
    let agreed = count(text, img, buf, &first[..many], out);
    println!(rt; "{agreed} of 200 piece lengths agree")
}

// Reads until the buffer is full or the input ends, and says how many bytes. A read says how far it came, so this counts bytes and no turns.
fn read_full(input: &mut impl Read, buf: &mut [u8]) -> io::Result<usize>
    ensures { IfOk result (λ n. n ≤ length buf.new) }
{
    let mut done: usize = 0;
    while done < buf.len() {
        let got = input.read(&mut buf[done..])?;
        if got == 0 {
            break;
        }
        done += got;
    }
    Ok(done)
}

fn main(rt: HostRuntime) -> io::Result<()> {
    let mut image = [0u8; 32816];
    let img: &mut [u8] = &mut image;
    let mut input = [0u8; 60000];
    let text: &mut [u8] = &mut input;
    let mut held = [0u8; 65536];
    let buf: &mut [u8] = &mut held;
    let mut whole = [0u8; 65536];
    let first: &mut [u8] = &mut whole;
    let mut output = [0u8; 65536];
    let out: &mut [u8] = &mut output;
    let n = read_full(&mut rt.stdin(), text)?;
    report(&rt, &text[..n], img, buf, first, out)
}
