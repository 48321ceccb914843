// Insert: what is to be done is found out first, on the image as it was, and then done. A refused insert passes no
// writer, so that every byte stays.
#![tactic(auto)]

mod tests; // tests.rt: what insert tests
mod steps; // steps.rt: what it writes

ghost use Rattle.std.specs.Prelude.{◌≡◌, Ok};
ghost use Rattle.words.specs.Words.{words};
ghost use Rattle.records.specs.Layout.{image_of};
ghost use Rattle.records.specs.Numbers.{answer_number};
ghost use Rattle.records.specs.Rewritten.{Rewritten};
ghost use Rattle.inspection.specs.Outcome.{Leaves};
ghost use Rattle.insert.specs.Steps.{plan_place, plan_image, insert_of, insert_image};

use crate::steps::{first, split};
use crate::tests::plan;
use keys::Key;
use records::arenas::Arenas;
use records::write::live_record;
use records::{Header, Node, NodeIndex, Refusal, Value, ValueIndex};

// What insert is going to do, found out before any write: a first leaf; the value of an equal leaf replaced; or a node
// split, of which the key shares so many bits. The header that was read goes along.
#[derive(Clone, Copy)]
pub enum Plan {
    First(Header),
    Replace(NodeIndex, ValueIndex),
    Split(Header, NodeIndex, Node, u64),
}

// Carries out a plan, and answers the leaf's index.
#[tactic(auto, unfolding(crate::specs::Steps::plan_place, crate::specs::Steps::plan_image))]
fn carry_out(img: &mut Arenas, plan: Plan, key: Key, v: Value) -> NodeIndex
    ensures leaf { Ok result ≡ plan_place (Ok plan) }
    ensures image { Rewritten img.old img.new (plan_image img.old.m img.old.n (words img.old.bytes.now) key v (Ok plan)) }
{
    match plan {
        Plan::Split(h, i, x, shared) => {
            split(img, h, i, x, shared, key, v);
            NodeIndex(h.nodes.head)
        }
        Plan::Replace(i, j) => {
            img.set_value(j, live_record(i, v));
            i
        }
        Plan::First(h) => {
            first(img, h, key, v);
            NodeIndex(h.nodes.head)
        }
    }
}

// Puts a key and its value into the map. The answer is the leaf's index, or refusal 1, 2 or 3.
#[tactic(auto, using(crate::proofs::Root::planned))]
pub fn insert(img: &mut [u8], m: u32, n: u32, key: Key, v: Value) -> Result<NodeIndex, Refusal>
    ensures answer { result ≡ insert_of m n (image_of img.old) key }
    ensures image { Leaves img.old img.new (answer_number (insert_of m n (image_of img.old) key)) (insert_image m n (image_of img.old) key v) }
{
    let plan = plan(img, m, n, key)?;
    let mut img = Arenas { bytes: img, m, n };
    Ok(carry_out(&mut img, plan, key, v))
}
