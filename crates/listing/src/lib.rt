// Listing from both ends: a position that is made from an image and stepped at its front or its back, one entry a step.
#![tactic(auto)]

pub mod open; // open.rt: opening one node, and what a leaf comes to
pub mod step; // step.rt: making a position, and a step at an end: popping and opening nodes until a leaf comes

use inspection::Visited;
use keys::Key;
use records::{NodeIndex, Refusal, Value, ValueIndex};

// One end of a listing: the nodes that are still to be opened, the next one last, and the value record that was given last (0 for none). Places at or above `count` are
// what earlier steps left there. An array and its count: memory is fixed.
#[derive(Clone, Copy)]
pub struct Stack {
    pub places: [NodeIndex; 129],
    pub count: u32,
    pub last: ValueIndex,
}

#[derive(Clone, Copy)]
pub struct Position {
    pub front: Stack,
    pub back: Stack,
    pub ended: bool,
}

// The answer of making a position, which is made after a refusal too (`made_zeros`, Promises).
#[derive(Clone, Copy)]
pub struct Made {
    pub answer: Result<(), Refusal>,
    pub position: Position,
}

// The answer of a step: its entry, and the position afterwards.
#[derive(Clone, Copy)]
pub struct Stepped {
    pub entry: Result<(Key, Value), Refusal>,
    pub position: Position,
}

// One node's answer while a stack is opened: the child that waits, the child that is opened next and what it is; that it is the leaf; or damage.
#[derive(Clone, Copy)]
pub enum Opens {
    On(NodeIndex, NodeIndex, Visited),
    Came,
    Spoiled,
}

// Where a stack stands when its leaf has come, for the definitions: the leaf or damage, the places and the count as popped and opened so far, and
// the leaf's index.
#[derive(Clone, Copy)]
pub struct Reached {
    pub came: Visited,
    pub places: [NodeIndex; 129],
    pub count: u32,
    pub leaf: NodeIndex,
}

// What a leaf comes to: whether the stack moves, the mark, the value record that the end gave last, and the entry. `moves`
// is a flag and `Given` no Option: tried, an entry of a listing took 986 instructions where it takes 799 (`bench/counts`).
#[derive(Clone, Copy)]
pub struct Given {
    pub moves: bool,
    pub ended: bool,
    pub last: ValueIndex,
    pub entry: Result<(Key, Value), Refusal>,
}

// What a step makes of the near end: its stack, the mark, and the entry.
#[derive(Clone, Copy)]
pub struct Moved {
    pub near: Stack,
    pub ended: bool,
    pub entry: Result<(Key, Value), Refusal>,
}
