// What is tested of an image before a call relies on it: the tests of each record, and the shape and header, which every call tests first.
#![tactic(auto)]

pub mod tests; // tests.rt: the tests of a record
pub mod visit; // visit.rt: a visited node, its children, and a leaf's value record
pub mod open; // open.rt: shape and header, which every call tests first

ghost use Rattle.std.specs.Prelude.{length};
ghost use Rattle.words.specs.Words.{words};
ghost use Rattle.inspection.specs.Room.{Room};

use records::{Header, Node};

// An image and its header, which gives room for every node below the bump: an opened image is one.
#[derive(Clone, Copy)]
pub struct Image<'a> {
    pub bytes: &'a [u8],
    pub h: Header,
    pub ghost room: { Room h (length (words bytes.now)) },
}

// A visited node that passes, by its kind; or damage, a case like the others in `visit_kind` (Visit).
#[derive(Clone, Copy)]
pub enum Visited {
    Inner(Node),
    Leaf(Node),
    Damaged,
}
