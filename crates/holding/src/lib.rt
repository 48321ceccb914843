// A listing that holds the image it lists: a struct of the lent image, the numbers M and N, and the position, with thin methods.
// The work is done by `listing::step`, on the image and the position; each method takes the struct apart and calls it.
#![tactic(auto)]

ghost use Rattle.std.specs.Prelude.{◌≡◌, true, false};
ghost use Rattle.records.specs.Layout.{image_of};
ghost use Rattle.listing.specs.Position.{made_of};
ghost use Rattle.holding.specs.Held.{begun, held_step, moved_on, placed, both_of, is_entry};

use keys::Key;
use listing::{Position, step};
use records::{Refusal, Value};

// The lent image, the numbers M and N that it is read by, and where the listing stands.
#[derive(Clone, Copy)]
pub struct Listing<'a> {
    pub image: &'a [u8],
    pub m: u32,
    pub n: u32,
    pub position: Position,
}

impl<'a> Listing<'a> {
    // A listing of an image, before its first entry and behind its last. A refused image is held all the same, and refused at each step.
    pub fn list(image: &'a [u8], m: u32, n: u32) -> Listing<'a>
        ensures { result ≡ begun image.entry m n }
    {
        let position = step::list(image, m, n).position;
        Listing {
            image,
            m,
            n,
            position,
        }
    }

    // The next entry from the front. The position that is held moves on.
    pub fn next(&mut self) -> Result<(Key, Value), Refusal>
        ensures { (result ≡ (held_step false self.old).entry) × (self.new ≡ moved_on false self.old) }
    {
        let front = step::next(self.image, self.m, self.n, self.position);
        self.position = front.position;
        front.entry
    }

    // The next entry from the back.
    pub fn next_back(&mut self) -> Result<(Key, Value), Refusal>
        ensures { (result ≡ (held_step true self.old).entry) × (self.new ≡ moved_on true self.old) }
    {
        let back = step::next_back(self.image, self.m, self.n, self.position);
        self.position = back.position;
        back.entry
    }

    // The same image, listed from another position, as one that was kept from an earlier step.
    pub fn moved(self, position: Position) -> Listing<'a>
        ensures { result ≡ placed self.entry position }
    {
        Listing { position, ..self }
    }
}

// What a listing gives first at its front, and then at its back.
#[derive(Clone, Copy)]
pub struct Ends {
    pub first: Result<(Key, Value), Refusal>,
    pub last: Result<(Key, Value), Refusal>,
}

// The first and the last entry of an image; of one entry alone the last is absent, since the ends have met.
pub fn first_and_last(image: &[u8], m: u32, n: u32) -> Ends
    ensures { result ≡ both_of (begun image.entry m n) }
{
    let mut l = Listing::list(image, m, n);
    let first = l.next();
    let last = l.next_back();
    Ends { first, last }
}

// Whether an image has a first entry.
pub fn has_entry(image: &[u8], m: u32, n: u32) -> bool
    ensures { result ≡ is_entry (held_step false (begun image.entry m n)).entry }
{
    first_and_last(image, m, n).first.is_ok()
}
