// Remove: a key's leaf leaves the map, and its sibling moves into the node above. Everything is tested before the
// first write, so that a refusal leaves every byte as it was.
#![tactic(auto)]

mod tests; // tests.rt: what remove tests, and so what it is going to do
mod steps; // steps.rt: what it then writes

ghost use Rattle.std.specs.Prelude.{◌≡◌, Ok};
ghost use Rattle.words.specs.Words.{words};
ghost use Rattle.records.specs.Layout.{image_of};
ghost use Rattle.records.specs.Numbers.{answer_number};
ghost use Rattle.records.specs.Rewritten.{Rewritten};
ghost use Rattle.inspection.specs.Outcome.{Leaves};
ghost use Rattle.remove.specs.Steps.{value_gone, plan_image, remove_of, removed_image};

use crate::steps::{remove_cut, remove_lone};
use crate::tests::image_plan;
use keys::Key;
use records::arenas::Arenas;
use records::{Header, Node, NodeIndex, Refusal, Value};

// What remove is going to do, found out before any write: the header, the leaf's index and record, and the value that
// it held. A leaf below a node comes with that node's record and with its sibling's index and record.
#[derive(Clone, Copy)]
pub enum Plan {
    Lone(Header, NodeIndex, Node, Value),
    Cut(Header, NodeIndex, Node, Node, NodeIndex, Node, Value),
}

// Carries out a plan, and answers the value that is gone.
#[tactic(auto, unfolding(crate::specs::Steps::value_gone, crate::specs::Steps::plan_image))]
fn carry_out(img: &mut Arenas, plan: Plan) -> Value
    ensures value { Ok result ≡ value_gone (Ok plan) }
    ensures image { Rewritten img.old img.new (plan_image img.old.m img.old.n (words img.old.bytes.now) (Ok plan)) }
{
    match plan {
        Plan::Cut(h, i, x, y, s, z, v) => {
            remove_cut(img, h, i, x, y, s, z);
            v
        }
        Plan::Lone(h, i, x, v) => {
            remove_lone(img, h, i, x);
            v
        }
    }
}

// Removes a key and answers its value; or refuses.
#[tactic(auto, using(crate::proofs::Root::planned))]
pub fn remove(img: &mut [u8], m: u32, n: u32, key: Key) -> Result<Value, Refusal>
    ensures answer { result ≡ remove_of m n (image_of img.old) key }
    ensures image { Leaves img.old img.new (answer_number (remove_of m n (image_of img.old) key)) (removed_image m n (image_of img.old) key) }
{
    let plan = image_plan(img, m, n, key)?;
    let mut img = Arenas { bytes: img, m, n };
    Ok(carry_out(&mut img, plan))
}
