// What remove tests, all of it on the image as it was before the call. Nothing here writes, and no record is read twice.
ghost use Rattle.std.specs.Prelude.{◌≡◌};
ghost use Rattle.words.specs.Words.{words};
ghost use Rattle.records.specs.Layout.{image_of};
ghost use Rattle.inspection.specs.Visit.{live_of};
ghost use Rattle.inspection.specs.Opening.{open_of};
ghost use Rattle.remove.specs.Plan.{cut_plan, leaf_plan, remove_plan};
ghost use Rattle.remove.specs.Steps.{opened_plan};

use crate::Plan;
use descent::reach;
use inspection::tests::is_used;
use inspection::visit::live_value;
use inspection::{Image, Visited};
use keys::{Key, bit, same};
use records::read::node_in;
use records::{Node, NodeIndex, Refusal, Value};

// Leaf `i`, whose record is `x` and whose value is `v`, below a node: its sibling is tested, and the sibling's children.
fn cut_plan(image: &Image, key: Key, i: NodeIndex, x: Node, v: Value) -> Result<Plan, Refusal>
    ensures { result ≡ cut_plan image.now.h (words image.now.bytes.now) key i x v }
{
    let h = image.h;
    let p = x.parent;
    if is_used(h, p) {
        let y = node_in(image.bytes, p);
        if y.prefix < 128 {
            let s = y.child(!bit(key, y.prefix)); // the child that the key does not turn to
            match image.visit(s, p, y.prefix + 1) {
                Visited::Leaf(z) => return Ok(Plan::Cut(h, i, x, y, s, z, v)),
                Visited::Inner(z) => {
                    if image.kids_ok(s, z) {
                        return Ok(Plan::Cut(h, i, x, y, s, z, v));
                    }
                }
                Visited::Damaged => {}
            }
        }
    }
    Err(Refusal::Damaged)
}

// The key's leaf `i`, whose record is `x`: its value record is tested; then it is the root, or hangs below a node.
#[tactic(auto, unfolding(crate::specs::Plan::leaf_plan))]
fn leaf_plan(image: &Image, n: u32, key: Key, i: NodeIndex, x: Node) -> Result<Plan, Refusal>
    ensures { result ≡ leaf_plan image.now.h (words image.now.bytes.now) key i x (live_of n (words image.now.bytes.now) i.0 x.value.0) }
{
    let v = live_value(image.bytes, n, i, x.value).ok_or(Refusal::Damaged)?;
    if x.parent.0 == 0 {
        return Ok(Plan::Lone(image.h, i, x, v));
    }
    cut_plan(image, key, i, x, v)
}

// Where the key's bits lead, and whether the leaf there is the key's.
#[tactic(auto, unfolding(crate::specs::Plan::reached_plan))]
fn key_plan(image: &Image, n: u32, key: Key) -> Result<Plan, Refusal>
    ensures { result ≡ remove_plan n image.now.h (words image.now.bytes.now) key }
{
    let (i, x) = reach(image, key).leaf()?;
    if same(key, x.key) {
        return leaf_plan(image, n, key, i, x);
    }
    Err(Refusal::Absent)
}

// Shape and header first.
#[tactic(auto, using(inspection::specs::Room::opened_words, inspection::specs::Room::room), unfolding(crate::specs::Steps::opened_plan))]
pub fn image_plan(img: &[u8], m: u32, n: u32, key: Key) -> Result<Plan, Refusal>
    ensures { result ≡ opened_plan n (image_of img.now) key (open_of m n (image_of img.now)) }
{
    let image = Image::open(img, m, n)?;
    key_plan(&image, n, key)
}
