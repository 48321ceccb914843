// The records of an image, as every call of the map reads and writes them: each as a whole. Nothing here follows a link, and nothing is tested;
// that is `inspection`.
#![tactic(auto)]

pub mod read; // read.rt: the header, a node, a value record, and the words that are padding
pub mod arenas; // arenas.rt: the two arenas of an image that is lent to be written
pub mod write; // write.rt: a node's data, a value record, the root

ghost use Rattle.std.specs.Prelude.{◌≡◌, cond};
ghost use Rattle.records.specs.Numbers.{refusal_number, answer_number};

use keys::Key;
use node_allocator::Counts;

// The index of a node. 0 means none.
#[derive(Clone, Copy)]
pub struct NodeIndex(pub u32);

// The index of a value record. 0 means none. Two types, so that neither index is taken for the other.
#[derive(Clone, Copy)]
pub struct ValueIndex(pub u32);

#[derive(Clone, Copy)]
pub struct Value {
    pub first: u64,
    pub second: u64,
}

// What the header says of the map. Words 0, 1 and 3 are padding and are read by themselves.
#[derive(Clone, Copy)]
pub struct Header {
    pub root: NodeIndex,
    pub nodes: Counts,
    pub values: Counts,
}

// A node's data: its first ten words. The last two are padding and are read by themselves.
#[derive(Clone, Copy)]
pub struct Node {
    pub left: NodeIndex,
    pub right: NodeIndex,
    pub parent: NodeIndex,
    pub value: ValueIndex,
    pub key: Key,
    pub prefix: u64,
}

impl Node {
    // The child on one side.
    pub fn child(self, right: bool) -> NodeIndex
        ensures { result ≡ cond right self.right self.left }
    {
        if right { self.right } else { self.left }
    }
}

// The rules name the four registers one by one.
#[derive(Clone, Copy)]
pub struct ValueRecord {
    pub register0: u32,
    pub register1: u32,
    pub register2: u32,
    pub register3: u32,
    pub value: Value,
}

// Why a call refuses: the error of every call's `Result`. `refusal_number` in specs/Numbers.antt gives the number of each.
#[derive(Clone, Copy, PartialEq, Eq)]
pub enum Refusal {
    Shape = 1,
    Damaged = 2,
    Full = 3,
    Absent = 4,
    NotBlank = 5,
    Cursor = 6,
}

// The number of an answer: 0 where the call did what was asked.
#[tactic(auto, unfolding(crate::specs::Numbers::answer_number))]
pub fn answer_number<T: Copy>(answer: Result<T, Refusal>) -> u32
    ensures { result ≡ answer_number answer }
{
    match answer {
        Ok(_) => 0,
        Err(r) => number(r),
    }
}

// The number of a refusal.
#[tactic(auto, using(crate::proofs::Tags::tag_number), unfolding(crate::specs::Numbers::refusal_number))]
pub fn number(r: Refusal) -> u32
    ensures { result ≡ refusal_number r }
{
    r as u32
}
