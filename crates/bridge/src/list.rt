// Listings as C functions. A position is lent as 263 words: each stack's 129 places, its count and its last value record, the front's first, then the mark.
ghost use Rattle.std.specs.Prelude.{◌≤◌};

use listing::step::{list, next, next_back};
use listing::{Position, Stack, Stepped};
use records::{NodeIndex, ValueIndex, answer_number};

fn stack_from(pos: &[u8], at: usize) -> Stack
    requires { at ≤ 131 }
{
    let mut places = [NodeIndex(0); 129];
    for k in 0..129 {
        places[k] = NodeIndex(words::word(pos, at + k));
    }
    Stack {
        places,
        count: words::word(pos, at + 129),
        last: ValueIndex(words::word(pos, at + 130)),
    }
}

fn put_stack(pos: &mut [u8], at: usize, s: Stack)
    requires { at ≤ 131 }
{
    for k in 0..129 {
        words::set_word(pos, at + k, s.places[k].0);
    }
    words::set_word(pos, at + 129, s.count);
    words::set_word(pos, at + 130, s.last.0);
}

fn put_position(pos: &mut [u8], p: Position) {
    put_stack(pos, 0, p.front);
    put_stack(pos, 131, p.back);
    words::set_word(pos, 262, p.ended as u32);
}

fn position_from(pos: &[u8]) -> Position {
    Position {
        front: stack_from(pos, 0),
        back: stack_from(pos, 131),
        ended: words::word(pos, 262) != 0,
    }
}

#[unsafe(no_mangle)]
pub extern "C" fn bridge_list(img: &[u8], m: u32, n: u32, pos: &mut [u8]) -> u32 {
    let made = list(img, m, n);
    put_position(pos, made.position);
    answer_number(made.answer)
}

// C says by a number which end it asks.
fn step_at(img: &[u8], m: u32, n: u32, back: bool, p: Position) -> Stepped {
    if back {
        return next_back(img, m, n, p);
    }
    next(img, m, n, p)
}

#[unsafe(no_mangle)]
pub extern "C" fn bridge_step(
    img: &[u8],
    m: u32,
    n: u32,
    back: u32,
    pos: &mut [u8],
    out: &mut [u8],
) -> u32 {
    let stepped = step_at(img, m, n, back != 0, position_from(pos));
    put_position(pos, stepped.position);
    crate::entry(stepped.entry, out)
}

// A whole listing from the front: how many entries it gives, and to `out` the exclusive or of each word of their keys and values.
#[unsafe(no_mangle)]
pub extern "C" fn bridge_list_all(img: &[u8], m: u32, n: u32, out: &mut [u8]) -> u64 {
    let mut p = list(img, m, n).position;
    let mut high: u64 = 0;
    let mut low: u64 = 0;
    let mut first: u64 = 0;
    let mut second: u64 = 0;
    let mut count: u64 = 0;
    for k in 0..65536 {
        let stepped = next(img, m, n, p);
        p = stepped.position;
        let Ok((key, v)) = stepped.entry else {
            break;
        };
        high ^= key.high;
        low ^= key.low;
        first ^= v.first;
        second ^= v.second;
        count = k + 1;
    }
    words::set_wide(out, 0, high);
    words::set_wide(out, 2, low);
    words::set_wide(out, 4, first);
    words::set_wide(out, 6, second);
    count
}
