// Input that comes in pieces: lines are cut wherever they fall. A buffer holds the bytes of the line that has begun, at its front, and behind them the next piece.
// A line of more than 80 bytes is not kept: it is marked, and answered when it ends.
ghost use Rattle.std.specs.Prelude.{◌≡◌, ℕ, ◌+◌, ◌-◌, ◌<◌, ◌≤◌, length, get_or, take, eqb, position, is_none, unwrap_or, IfSome};
ghost use Rattle.records.specs.Layout.{image_of};
ghost use Rattle.inspection.specs.Outcome.{Leaves};
ghost use Rattle.texts.specs.Put.{Written};
ghost use Rattle.commands.specs.Pieces.{Ended, Fed, Stopped, part, kept_of, kept_buffer, ending_text, ending_image, ending_kept};

use crate::run::line;
use texts::print::put_bad;

// Where answering stopped: the first byte of the line that has begun, the place behind the last answer, and whether the line that has begun is too long already.
// `long` stands beside the places and is no Option: both places are there for a long line too.
#[derive(Clone, Copy)]
pub struct Turn {
    pub from: usize,
    pub at: usize,
    pub long: bool,
}

// The place of the first LF.
fn line_end(part: &[u8]) -> Option<usize>
    ensures { result ≡ position (λ b. eqb b 10) part.now }
{
    part.iter().position(|b| *b == b'\n')
}

// A line that has ended.
fn ended(text: &[u8], long: bool, img: &mut [u8], out: &mut [u8], at: usize) -> usize
    requires { at + 16911 ≤ length out.old }
    ensures room { result ≤ at + 16911 }
    ensures line { Ended long text.now img.old img.new out.old out.new at result }
{
    if long {
        return put_bad(out, at);
    }
    line(text, img, out, at)
}

// Answers the lines that end in a part of the buffer, until none is left or the output has no room for the longest answer.
// It takes the buffer and two places, and no slice: it answers a place of the buffer, from which `keep` then moves the rest inside it.
pub fn answer_lines(
    buf: &[u8],
    from: usize,
    end: usize,
    long: bool,
    img: &mut [u8],
    out: &mut [u8],
    at: usize,
) -> Turn
    requires { (from ≤ end) × (end ≤ length buf.now) × (at ≤ length out.old) }
    ensures within { (from ≤ result.from) × (result.from ≤ end) × (result.at ≤ length out.old) }
    ensures lines { Fed long (part from result.from buf.now) img.old img.new out.old out.new at result.at result.long }
    ensures stopped { Stopped long buf.now img.old from at (length out.old) result.from result.long }
    ensures left { result.at + 16911 ≤ length out.old → (k : ℕ) → result.from ≤ k → k < end → get_or buf.now k 0 ≡ 10 → ⊥ }
{
    let mut start = from;
    let mut place = at;
    let mut over = long;
    while 16911 <= out.len() - place {
        let Some(size) = line_end(&buf[start..end]) else {
            break;
        };
        let stop = start + size;
        place = ended(&buf[start..stop], over, img, out, place);
        over = false;
        start = stop + 1;
    }
    Turn {
        from: start,
        at: place,
        long: over,
    }
}

// Keeps what has begun: at most 80 bytes go to the front, and so many are kept. Of a longer line there is nothing, which marks it.
pub fn keep(buf: &mut [u8], from: usize, end: usize, long: bool) -> Option<usize>
    requires { (from ≤ end) × (end ≤ length buf.old) }
    ensures room { IfSome result (λ have. have ≤ 80) }
    ensures kept { result ≡ kept_of long from end }
    ensures buffer { buf.new ≡ kept_buffer long from end buf.old }
{
    let many = end - from;
    if long || 80 < many {
        return None;
    }
    buf.copy_within(from..end, 0);
    Some(many)
}

// The end of the input: a last line without LF counts if it has a byte. What is kept stands at the buffer's front, so it is given by its length, as `keep` answers it.
pub fn finish(buf: &[u8], kept: Option<usize>, img: &mut [u8], out: &mut [u8], at: usize) -> usize
    requires { (IfSome kept (λ have. have ≤ length buf.now)) × (at + 16911 ≤ length out.old) }
    ensures room { result ≤ at + 16911 }
    ensures text { Written out.old out.new at result (ending_text 256 512 (is_none kept) (image_of img.old) (take (unwrap_or kept 0) buf.now)) }
    ensures image { Leaves img.old img.new (ending_kept 256 512 (is_none kept) (image_of img.old) (take (unwrap_or kept 0) buf.now)) (ending_image 256 512 (is_none kept) (image_of img.old) (take (unwrap_or kept 0) buf.now)) }
{
    match kept {
        None => put_bad(out, at),
        Some(0) => at,
        Some(have) => line(&buf[..have], img, out, at),
    }
}
