// The header, a node and a value record, each read as a whole; and the words that are padding, each under its own name.
ghost use Rattle.std.specs.Prelude.{◌≡◌, ◌+◌, ◌*◌, ◌<◌, ◌≤◌, length};
ghost use Rattle.words.specs.Words.{words};
ghost use Rattle.node_allocator.specs.Steps.{counts_at};
ghost use Rattle.records.specs.Records.{key_at, header_of, front_of, spare_of, node_of, padding_of, value_of, record_from, value_record_of};

use crate::{Header, Node, NodeIndex, Value, ValueIndex, ValueRecord};
use keys::Key;
use node_allocator::{Counts, node_at, value_at, values_at};

#[tactic(auto, using(words::specs::Words::words_length))]
fn key_in(img: &[u8], at: usize) -> Key
    requires { at + 4 ≤ length (words img.now) }
    ensures { result ≡ key_at (words img.now) at }
{
    Key {
        high: words::wide_in(img, at + 2),
        low: words::wide_in(img, at),
    }
}

#[tactic(auto, using(words::specs::Words::words_length))]
fn counts_in(img: &[u8], at: usize) -> Counts
    requires { at + 4 ≤ length (words img.now) }
    ensures { result ≡ counts_at (words img.now) at }
{
    Counts {
        size: words::wide_in(img, at),
        bump: words::word_in(img, at + 2),
        head: words::word_in(img, at + 3),
    }
}

// The header of an image that is known to hold `n` nodes.
#[tactic(auto, unfolding(crate::specs::Records::header_of))]
pub fn header_in(img: &[u8], n: u32) -> Header
    requires { 12 * n + 12 ≤ length (words img.now) }
    ensures { result ≡ header_of n (words img.now) }
{
    Header {
        root: NodeIndex(words::word_in(img, 2)),
        nodes: counts_in(img, 4),
        values: counts_in(img, values_at(n)),
    }
}

// The header's padding in words 0 and 1.
#[tactic(auto, unfolding(crate::specs::Records::front_of))]
pub fn front_in(img: &[u8]) -> u64
    requires { 12 ≤ length (words img.now) }
    ensures { result ≡ front_of (words img.now) }
{
    words::wide_in(img, 0)
}

// The header's padding in word 3.
#[tactic(auto, unfolding(crate::specs::Records::spare_of))]
pub fn spare_in(img: &[u8]) -> u32
    requires { 12 ≤ length (words img.now) }
    ensures { result ≡ spare_of (words img.now) }
{
    words::word_in(img, 3)
}

// A node that is known to lie inside.
#[tactic(auto, unfolding(crate::specs::Records::node_of))]
pub fn node_in(img: &[u8], i: NodeIndex) -> Node
    requires { (1 ≤ i.0) × (12 * i.0 + 8 ≤ length (words img.now)) }
    ensures { result ≡ node_of (words img.now) i.0 }
{
    let b = node_at(i.0);
    Node {
        left: NodeIndex(words::word_in(img, b)),
        right: NodeIndex(words::word_in(img, b + 1)),
        parent: NodeIndex(words::word_in(img, b + 2)),
        value: ValueIndex(words::word_in(img, b + 3)),
        key: key_in(img, b + 4),
        prefix: words::wide_in(img, b + 8),
    }
}

// The padding of a node that is known to lie inside.
#[tactic(auto, unfolding(crate::specs::Records::padding_of))]
pub fn padding_in(img: &[u8], i: NodeIndex) -> u64
    requires { (1 ≤ i.0) × (12 * i.0 + 8 ≤ length (words img.now)) }
    ensures { result ≡ padding_of (words img.now) i.0 }
{
    words::wide_in(img, node_at(i.0) + 10)
}

#[tactic(auto, using(words::specs::Words::words_length))]
fn value_in(img: &[u8], at: usize) -> Value
    requires { at + 4 ≤ length (words img.now) }
    ensures { result ≡ value_of (words img.now) at }
{
    Value {
        first: words::wide_in(img, at),
        second: words::wide_in(img, at + 2),
    }
}

// A value record, with one test for all its words; past the end each is 0.
#[tactic(auto, using(words::specs::Words::words_length), unfolding(crate::specs::Records::record_from))]
pub fn value_record(img: &[u8], n: u32, j: ValueIndex) -> ValueRecord
    ensures { result ≡ value_record_of n (words img.now) j.0 }
{
    let b = value_at(n, j.0);
    if b + 8 <= words::count(img) {
        return ValueRecord {
            register0: words::word_in(img, b),
            register1: words::word_in(img, b + 1),
            register2: words::word_in(img, b + 2),
            register3: words::word_in(img, b + 3),
            value: value_in(img, b + 4),
        };
    }
    value_record_past(img, b)
}

// The same where a part of it may lie past the end: each word is tested by itself, which a record that lies inside is spared. The value is read
// first: read last, it costs a remove some moves more.
#[tactic(auto, unfolding(crate::specs::Records::record_from))]
fn value_record_past(img: &[u8], at: usize) -> ValueRecord
    requires { at < 1099511627776 }
    ensures { result ≡ record_from (words img.now) at }
{
    let value = Value {
        first: words::wide(img, at + 4),
        second: words::wide(img, at + 6),
    };
    ValueRecord {
        register0: words::word(img, at),
        register1: words::word(img, at + 1),
        register2: words::word(img, at + 2),
        register3: words::word(img, at + 3),
        value,
    }
}
