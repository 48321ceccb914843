// The command program: lines from standard input, their answers on standard output. It reads in large pieces, and writes the answers to what it has read before it waits for more.
//
// What a line asks and what it is answered is `commands`. A write that fails ends the program; a read that fails ends the input. Either way `main` ends with that error.
#![tactic(auto)]

ghost use Rattle.std.specs.Prelude.{◌≡◌, ℕ, ◌+◌, ◌<◌, ◌≤◌, length, get_or, take, is_none, unwrap_or, IfSome, IfOk, OnOk};
ghost use Rattle.records.specs.Layout.{image_of};
ghost use Rattle.inspection.specs.Outcome.{Leaves};
ghost use Rattle.commands.specs.Pieces.{PieceLeaves, part, ending_image, ending_kept};

use commands::pieces::{answer_lines, finish, keep};
use lookup::start::start;
use std::io::{self, Read};

// Where a piece ends: the first byte of the line that has begun, whether it is too long already, and whether every answer was written, or the error of the write that failed.
// The error stands beside the place, since what is left of the image is promised after a write that failed too.
#[derive(Clone, Copy)]
struct Answered {
    from: usize,
    long: bool,
    written: io::Result<()>,
}

// One read; 0 at the end of the input.
fn read_part(input: &mut impl Read, buf: &mut [u8]) -> io::Result<usize>
    ensures { IfOk result (λ got. got ≤ length buf.old) }
{
    input.read(buf)
}

// Answers a piece, and writes the answers: whenever the output is full, and at the end. Then no LF is left.
fn answer_piece(
    rt: &impl Print,
    piece: &[u8],
    long: bool,
    img: &mut [u8],
    out: &mut [u8],
) -> Answered
    requires { (length piece.now ≤ 65536) × (16911 ≤ length out.old) }
    ensures within { result.from ≤ length piece.now }
    ensures image { PieceLeaves long (part 0 result.from piece.now) img.old img.new result.long }
    ensures left { OnOk result.written ((k : ℕ) → result.from ≤ k → k < length piece.now → get_or piece.now k 0 ≡ 10 → ⊥) }
{
    let mut from: usize = 0;
    let mut over = long;
    loop {
        let t = answer_lines(piece, from, piece.len(), over, img, out, 0);
        from = t.from;
        over = t.long;
        let written = rt.write_all(&out[..t.at]);
        if written.is_err() || 16911 <= out.len() - t.at {
            return Answered {
                from,
                long: over,
                written,
            };
        }
    }
}

// The input has ended: a last line without LF.
fn answer_last(
    rt: &impl Print,
    buf: &[u8],
    kept: Option<usize>,
    img: &mut [u8],
    out: &mut [u8],
) -> io::Result<()>
    requires { (IfSome kept (λ have. have ≤ length buf.now)) × (16911 ≤ length out.old) }
    ensures { Leaves img.old img.new (ending_kept 256 512 (is_none kept) (image_of img.old) (take (unwrap_or kept 0) buf.now)) (ending_image 256 512 (is_none kept) (image_of img.old) (take (unwrap_or kept 0) buf.now)) }
{
    let at = finish(buf, kept, img, out, 0);
    rt.write_all(&out[..at])
}

// The whole input, on an image that start has made.
fn answer_input(
    rt: &impl Print,
    input: &mut impl Read,
    buf: &mut [u8],
    img: &mut [u8],
    out: &mut [u8],
) -> io::Result<()>
    requires { (80 ≤ length buf.old) × (length buf.old ≤ 65536) × (16911 ≤ length out.old) }
{
    let mut kept = Some(0);
    for _ in 0..u64::MAX {
        let have = kept.unwrap_or(0);
        let got = match read_part(input, &mut buf[have..]) {
            Ok(got) => got,
            Err(e) => {
                answer_last(rt, buf, kept, img, out)?;
                return Err(e);
            }
        };
        if got == 0 {
            return answer_last(rt, buf, kept, img, out);
        }
        let end = have + got;
        let a = answer_piece(rt, &buf[..end], kept.is_none(), img, out);
        a.written?;
        kept = keep(buf, a.from, end, a.long);
    }
    Ok(())
}

fn main(rt: HostRuntime) -> io::Result<()> {
    let mut image = [0u8; 32816];
    let img: &mut [u8] = &mut image;
    let mut input = [0u8; 65536];
    let buf: &mut [u8] = &mut input;
    let mut output = [0u8; 65536];
    let out: &mut [u8] = &mut output;
    match start(img, 256, 512) {
        Ok(()) => answer_input(&rt, &mut rt.stdin(), buf, img, out),
        Err(_) => Ok(()),
    }
}
