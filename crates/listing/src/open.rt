// Opening one node, and what the leaf comes to. The loop that opens nodes until a leaf comes is in step.rt. No node is read twice.
ghost use Rattle.std.specs.Prelude.{◌≡◌, ◌+◌, ◌-◌, ◌*◌, ◌≤◌, ◌<◌};
ghost use Rattle.words.specs.Words.{words};
ghost use Rattle.listing.specs.Step.{open_turn};
ghost use Rattle.listing.specs.Ends.{stuck, live_given, given_of};

use crate::{Given, Opens};
use inspection::visit::live_value;
use inspection::{Image, Visited};
use records::{Node, NodeIndex, Refusal, Value, ValueIndex};

// One node of the opening: node `i`, which has passed, on a stack of so many places. Both children are tested.
#[tactic(auto, using(crate::specs::Step::far_child), unfolding(crate::specs::Step::open_turn))]
pub fn open_turn(image: &Image, back: bool, count: u32, i: NodeIndex, came: Visited) -> Opens
    requires { count ≤ 129 }
    ensures { result ≡ open_turn back image.now.h (words image.now.bytes.now) count i came }
{
    match came {
        Visited::Inner(x) => {
            if count + 2 <= 129 {
                if x.prefix < 128 {
                    let low = x.prefix + 1;
                    let wait = x.child(!back);
                    if image.node_ok(wait, i, low) {
                        let next = x.child(back);
                        return Opens::On(wait, next, image.visit(next, i, low));
                    }
                }
            }
            Opens::Spoiled
        }
        Visited::Leaf(_) => Opens::Came,
        Visited::Damaged => Opens::Spoiled,
    }
}

// Damage: the stack does not move.
fn stopped(last: ValueIndex) -> Given
    ensures { result ≡ stuck last }
{
    Given {
        moves: false,
        ended: false,
        last,
        entry: Err(Refusal::Damaged),
    }
}

// A leaf's entry, by its value record.
#[tactic(auto, unfolding(crate::specs::Ends::live_given))]
fn live_given(x: Node, last: ValueIndex, live: Option<Value>) -> Given
    ensures { result ≡ live_given x last live }
{
    match live {
        Some(v) => Given {
            moves: true,
            ended: false,
            last: x.value,
            entry: Ok((x.key, v)),
        },
        None => stopped(last),
    }
}

// What the leaf comes to: the ends meet, or its value record is tested and its entry given.
pub fn given(
    img: &[u8],
    n: u32,
    came: Visited,
    leaf: NodeIndex,
    last: ValueIndex,
    other: ValueIndex,
) -> Given
    ensures { result ≡ given_of n (words img.now) came leaf last other }
{
    match came {
        Visited::Leaf(x) => {
            if x.value.0 == other.0 {
                return Given {
                    moves: true,
                    ended: true,
                    last,
                    entry: Err(Refusal::Absent),
                };
            }
            live_given(x, last, live_value(img, n, leaf, x.value))
        }
        Visited::Inner(_) => stopped(last),
        Visited::Damaged => stopped(last),
    }
}
