// Get, contains, `get_addr` and the value write: by a key.
ghost use Rattle.std.specs.Prelude.{◌≡◌};
ghost use Rattle.words.specs.Words.{words};
ghost use Rattle.records.specs.Layout.{image_of};
ghost use Rattle.records.specs.Numbers.{answer_number};
ghost use Rattle.inspection.specs.Outcome.{Leaves};
ghost use Rattle.lookup.specs.Get.{stop_target, target_of, get_of, contains_of, addr_of, write_of, write_image};

use descent::{Stop, find};
use inspection::Image;
use inspection::visit::live_value;
use keys::Key;
use records::write::{live_record, set_value};
use records::{Node, NodeIndex, Refusal, Value};

// The leaf that a descent came to and its value, whose record is tested.
#[tactic(auto, unfolding(crate::specs::Get::leaf_target, crate::specs::Get::live_target, descent::specs::Found::stop_leaf))]
pub fn stop_target(img: &[u8], n: u32, stop: Stop) -> Result<(NodeIndex, Node, Value), Refusal>
    ensures { result ≡ stop_target n (words img.now) stop }
{
    let (i, x) = stop.leaf()?;
    let v = live_value(img, n, i, x.value).ok_or(Refusal::Damaged)?;
    Ok((i, x, v))
}

// A key's leaf and its value, or the first refusal in the order of rule R7.
#[tactic(auto, using(inspection::specs::Room::room, inspection::specs::Room::opened_words), unfolding(crate::specs::Get::target_of, crate::specs::Get::opened_target))]
fn target(img: &[u8], m: u32, n: u32, key: Key) -> Result<(NodeIndex, Node, Value), Refusal>
    ensures { result ≡ target_of m n (image_of img.now) key }
{
    let image = Image::open(img, m, n)?;
    stop_target(img, n, find(&image, key))
}

// The value of a key.
#[tactic(auto, unfolding(crate::specs::Get::get_of, crate::specs::Get::target_got))]
pub fn get(img: &[u8], m: u32, n: u32, key: Key) -> Result<Value, Refusal>
    ensures { result ≡ get_of m n (image_of img.now) key }
{
    let (_, _, v) = target(img, m, n, key)?;
    Ok(v)
}

// Writes the value of a key that is held: what the Rust's `get_mut` is for.
pub fn set(img: &mut [u8], m: u32, n: u32, key: Key, v: Value) -> Result<(), Refusal>
    ensures answer { result ≡ write_of m n (image_of img.old) key }
    ensures image { Leaves img.old img.new (answer_number (write_of m n (image_of img.old) key)) (write_image m n (image_of img.old) key v) }
{
    let (i, x, _) = target(img, m, n, key)?;
    set_value(img, m, n, x.value, live_record(i, v));
    Ok(())
}

// Whether a key is held: yes, or refusal 4. No value record is tested.
#[tactic(auto, using(inspection::specs::Room::room, inspection::specs::Room::opened_words), unfolding(crate::specs::Get::contains_of, crate::specs::Get::opened_done, crate::specs::Get::leaf_done, descent::specs::Found::stop_leaf))]
pub fn contains(img: &[u8], m: u32, n: u32, key: Key) -> Result<(), Refusal>
    ensures { result ≡ contains_of m n (image_of img.now) key }
{
    let image = Image::open(img, m, n)?;
    find(&image, key).leaf()?;
    Ok(())
}

// The node of a key. No value record is tested.
#[tactic(auto, using(inspection::specs::Room::room, inspection::specs::Room::opened_words), unfolding(crate::specs::Get::addr_of, crate::specs::Get::opened_place, crate::specs::Get::leaf_place, descent::specs::Found::stop_leaf))]
pub fn get_addr(img: &[u8], m: u32, n: u32, key: Key) -> Result<NodeIndex, Refusal>
    ensures { result ≡ addr_of m n (image_of img.now) key }
{
    let image = Image::open(img, m, n)?;
    let (i, _) = find(&image, key).leaf()?;
    Ok(i)
}
