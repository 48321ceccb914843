// Making a position, and a step at an end.
ghost use Rattle.std.specs.Prelude.{◌≡◌, ◌+◌, ◌-◌, ◌*◌, ◌≤◌, ◌<◌, true, false};
ghost use Rattle.words.specs.Words.{words};
ghost use Rattle.records.specs.Layout.{image_of};
ghost use Rattle.listing.specs.Position.{empty_stack, root_stack, both_ends, opened_made, made_of};
ghost use Rattle.listing.specs.Step.{step_of};
ghost use Rattle.listing.specs.Ends.{admit_of, end_step};

use crate::open::{given, open_turn};
use crate::{Made, Moved, Opens, Position, Stack, Stepped};
use inspection::open::{is_image, open_image, open_shaped};
use inspection::{Image, Visited};
use records::{Header, NodeIndex, Refusal, ValueIndex};

// ---- making a position

fn empty_stack() -> Stack
    ensures { result ≡ empty_stack }
{
    Stack {
        places: [NodeIndex(0); 129],
        count: 0,
        last: ValueIndex(0),
    }
}

fn root_stack(root: NodeIndex) -> Stack
    ensures { result ≡ root_stack root }
{
    let mut places = [NodeIndex(0); 129];
    places[0] = root;
    Stack {
        places,
        count: 1,
        last: ValueIndex(0),
    }
}

fn both_ends(s: Stack) -> Position
    ensures { result ≡ both_ends s }
{
    Position {
        front: s,
        back: s,
        ended: false,
    }
}

// A position before the first entry and behind the last. It tests shape and header only.
#[tactic(auto, unfolding(crate::specs::Position::made_of, crate::specs::Position::opened_made))]
pub fn list(img: &[u8], m: u32, n: u32) -> Made
    ensures { result ≡ made_of m n (image_of img.now) }
{
    match open_image(img, m, n) {
        Ok(h) => Made {
            answer: Ok(()),
            position: both_ends(if h.values.size == 0 {
                empty_stack()
            } else {
                root_stack(h.root)
            }),
        },
        Err(r) => Made {
            answer: Err(r),
            position: both_ends(empty_stack()),
        },
    }
}

// ---- a step

// Whether a step may pop a node: the shape, then the position, then the header; then whether there is a node to pop.
#[tactic(auto, using(inspection::specs::Room::shaped_opens, inspection::specs::Room::shaped_shut), unfolding(crate::specs::Ends::admit_of, crate::specs::Ends::opened_admit))]
fn admit(img: &[u8], m: u32, n: u32, ended: bool, count: u32, held: u32) -> Result<Header, Refusal>
    ensures { result ≡ admit_of m n (image_of img.now) ended count held }
{
    if !is_image(img, m, n) {
        return Err(Refusal::Shape);
    }
    if (129 < count) | (129 < held) {
        return Err(Refusal::Cursor);
    }
    let h = open_shaped(img, m, n)?;
    if ended | (count == 0) {
        return Err(Refusal::Absent);
    }
    Ok(h)
}

// A step at one end, whose stack is `s`; the other end has so many places, and gave `other` last. The next node is popped, and nodes are opened from there on
// until a leaf comes. The stack is copied once and written in place; it goes back as it came where a test fails.
fn step(
    img: &[u8],
    m: u32,
    n: u32,
    back: bool,
    ended: bool,
    s: Stack,
    held: u32,
    other: ValueIndex,
) -> Moved
    ensures { result ≡ end_step back m n (image_of img.now) ended s held other }
{
    let h = match admit(img, m, n, ended, s.count, held) {
        Ok(h) => h,
        Err(r) => return Moved {
            near: s,
            ended,
            entry: Err(r),
        },
    };
    let mut places = s.places;
    let mut count = s.count - 1;
    let top = count as usize;
    let mut i = places[top];
    // Not by `Image::open`: `admit` has tested the shape.
    let image = Image { bytes: img, h };
    let mut came = image.visit_first(i);
    let reached = loop {
        match open_turn(&image, back, count, i, came) {
            Opens::On(wait, next, what) => {
                let at = count as usize;
                places[at] = wait;
                places[at + 1] = next;
                count += 1;
                i = next;
                came = what;
            }
            Opens::Came => break came,
            Opens::Spoiled => break Visited::Damaged,
        }
    };
    let g = given(img, n, reached, i, s.last, other);
    if !g.moves {
        places = s.places;
        count = s.count;
    }
    Moved {
        near: Stack {
            places,
            count,
            last: g.last,
        },
        ended: g.ended,
        entry: g.entry,
    }
}

// The next entry from the front: the Rust's `next`. It and `next_back` are two names over one step, each of which takes its own end from the position.
pub fn next(img: &[u8], m: u32, n: u32, p: Position) -> Stepped
    ensures { result ≡ step_of false m n (image_of img.now) p }
{
    let r = step(
        img,
        m,
        n,
        false,
        p.ended,
        p.front,
        p.back.count,
        p.back.last,
    );
    Stepped {
        entry: r.entry,
        position: Position {
            front: r.near,
            back: p.back,
            ended: r.ended,
        },
    }
}

// The next entry from the back: the Rust's `next_back`.
pub fn next_back(img: &[u8], m: u32, n: u32, p: Position) -> Stepped
    ensures { result ≡ step_of true m n (image_of img.now) p }
{
    let r = step(
        img,
        m,
        n,
        true,
        p.ended,
        p.back,
        p.front.count,
        p.front.last,
    );
    Stepped {
        entry: r.entry,
        position: Position {
            front: p.front,
            back: r.near,
            ended: r.ended,
        },
    }
}
