// Smallest and largest: the first entry from the left, and from the right.
ghost use Rattle.std.specs.Prelude.{◌≡◌};
ghost use Rattle.records.specs.Layout.{image_of};
ghost use Rattle.lookup.specs.Ends.{end_entry, smallest_of, largest_of};

use crate::get::stop_target;
use descent::find_end;
use inspection::Image;
use keys::Key;
use records::{Refusal, Value};

#[tactic(auto, using(inspection::specs::Room::room, inspection::specs::Room::opened_words), unfolding(crate::specs::Ends::end_entry, crate::specs::Ends::opened_entry, crate::specs::Ends::target_entry))]
fn end_entry(img: &[u8], m: u32, n: u32, right: bool) -> Result<(Key, Value), Refusal>
    ensures { result ≡ end_entry m n (image_of img.now) right }
{
    let image = Image::open(img, m, n)?;
    let (_, x, v) = stop_target(img, n, find_end(&image, right))?;
    Ok((x.key, v))
}

// The entry with the smallest key. The Rust has two names, for which `end_entry` is one function.
pub fn get_min(img: &[u8], m: u32, n: u32) -> Result<(Key, Value), Refusal>
    ensures { result ≡ smallest_of m n (image_of img.now) }
{
    end_entry(img, m, n, false)
}

// The entry with the largest key.
pub fn get_max(img: &[u8], m: u32, n: u32) -> Result<(Key, Value), Refusal>
    ensures { result ≡ largest_of m n (image_of img.now) }
{
    end_entry(img, m, n, true)
}
