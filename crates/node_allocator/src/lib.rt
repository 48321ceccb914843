// The arena: a header of size, bump and head, records of equal width behind it, and a chain of freed records through register 0. It is the
// Rust's `NodeAllocator` over a lent image of words, for node records and value records by one set of functions.
//
// Index 0 is none, as in the Rust: its registers read 0 and nothing is stored to them. An index above the capacity, where the Rust
// panics, is treated alike, so that no call needs a condition and none leaves its arena. An index here is a plain number; the map above
// keeps those of nodes and of values apart.
#![tactic(auto)]

ghost use Rattle.std.specs.Prelude.{◌≡◌, ◌+◌, ◌*◌, ◌<◌, ◌≤◌, length};
ghost use Rattle.words.specs.Words.{words};
ghost use Rattle.node_allocator.specs.Layout.{node_at, value_at, values_at, header_at, record_at, capacity_of, width_of, register_of, inside};
ghost use Rattle.node_allocator.specs.Steps.{counts_of, set_counts, initialized, get_register, set_register, clear_register, connected, disconnected};
ghost use Rattle.node_allocator.specs.Steps.{taken, add_counts, add_image, freed, remove_counts, remove_image, never_used, link_ok};

// The two arenas of an image: its nodes, and behind them its values.
#[derive(Clone, Copy)]
pub enum Arena {
    Nodes { nodes: u32 },
    Values { nodes: u32, values: u32 },
}

// The registers of a record in their order, by the names that they have in a tree node. A value record uses register 0 alone, for the chain.
#[derive(Clone, Copy)]
pub enum Register {
    Left,
    Right,
    Parent,
    Value,
}

// What an arena's header holds.
#[derive(Clone, Copy)]
pub struct Counts {
    pub size: u64,
    pub bump: u32,
    pub head: u32,
}

// ---- where an arena stands

// The first word of node `i`; 0 for index 0, which names none.
pub fn node_at(i: u32) -> usize
    ensures { (result ≡ node_at i) × (result < 68719476736) }
{
    (12 * (i as usize)).saturating_sub(4)
}

// The first word of the values' header, behind `n` nodes.
pub fn values_at(n: u32) -> usize
    ensures { (result ≡ values_at n) × (result < 68719476736) }
{
    12 * (n as usize) + 8
}

// The first word of value record `j` behind `n` nodes.
pub fn value_at(n: u32, j: u32) -> usize
    ensures { (result ≡ value_at n j) × (result < 137438953472) }
{
    12 * (n as usize) + 8 * (j as usize) + 4
}

// The first of the four header words.
#[tactic(auto, unfolding(crate::specs::Layout::header_at))]
fn header_at(a: Arena) -> usize
    ensures { (result ≡ header_at a) × (result < 68719476736) }
{
    match a {
        Arena::Nodes { .. } => 4,
        Arena::Values { nodes, .. } => values_at(nodes),
    }
}

// The first word of record `i`.
#[tactic(auto, unfolding(crate::specs::Layout::record_at))]
pub fn record_at(a: Arena, i: u32) -> usize
    ensures { (result ≡ record_at a i) × (result < 137438953472) }
{
    match a {
        Arena::Nodes { .. } => node_at(i),
        Arena::Values { nodes, .. } => value_at(nodes, i),
    }
}

// How many records an arena has.
#[tactic(auto, unfolding(crate::specs::Layout::capacity_of))]
pub fn capacity(a: Arena) -> u32
    ensures { result ≡ capacity_of a }
{
    match a {
        Arena::Nodes { nodes } => nodes,
        Arena::Values { values, .. } => values,
    }
}

// How many words a record has.
#[tactic(auto, unfolding(crate::specs::Layout::width_of))]
pub fn width(a: Arena) -> usize
    ensures { result ≡ width_of a }
{
    match a {
        Arena::Nodes { .. } => 12,
        Arena::Values { .. } => 8,
    }
}

// The place of a register in its record.
fn place_of(f: Register) -> usize
    ensures { (result ≡ register_of f) × (result < 4) }
{
    f as usize
}

// Whether an index names a record of the arena.
pub fn is_inside(a: Arena, i: u32) -> bool
    ensures { result ≡ inside a i }
{
    (1..=capacity(a)).contains(&i)
}

// ---- reading

// The header: size, bump and head.
#[tactic(auto, unfolding(crate::specs::Steps::counts_of))]
pub fn header(img: &[u8], a: Arena) -> Counts
    ensures { result ≡ counts_of a (words img.now) }
{
    let b = header_at(a);
    Counts {
        size: words::wide(img, b),
        bump: words::word(img, b + 2),
        head: words::word(img, b + 3),
    }
}

// A register of a record; 0 where the index names none.
#[tactic(auto, unfolding(crate::specs::Steps::get_register))]
pub fn get_register(img: &[u8], a: Arena, i: u32, f: Register) -> u32
    ensures { result ≡ get_register a (words img.now) i f }
{
    if is_inside(a, i) {
        return words::word(img, record_at(a, i) + place_of(f));
    }
    0
}

// Whether every word of a record is 0, as those of a record that was never used are. The caller knows that it lies inside.
#[tactic(auto, using(crate::specs::Room::node_unused, crate::specs::Room::value_unused), unfolding(crate::specs::Layout::record_at, crate::specs::Layout::width_of))]
pub fn never_used(img: &[u8], a: Arena, i: u32) -> bool
    requires { record_at a i + width_of a ≤ length (words img.now) }
    ensures { result ≡ never_used a (words img.now) i }
{
    match a {
        Arena::Nodes { .. } => {
            let at = node_at(i);
            words::four_zeros(img, at)
                & words::four_zeros(img, at + 4)
                & words::four_zeros(img, at + 8)
        }
        Arena::Values { nodes, .. } => {
            let at = value_at(nodes, i);
            words::four_zeros(img, at) & words::four_zeros(img, at + 4)
        }
    }
}

// Whether a free record's link may be `next`: a record, or the bump at the chain's end, and not the free record itself.
pub fn link_ok(bump: u32, i: u32, next: u32) -> bool
    ensures { result ≡ link_ok bump i next }
{
    (1..=bump).contains(&next) & (next != i)
}

// ---- registers

#[tactic(auto, unfolding(crate::specs::Steps::set_register))]
pub fn set_register(img: &mut [u8], a: Arena, i: u32, v: u32, f: Register)
    ensures { words img.new ≡ set_register a (words img.old) i v f }
{
    if is_inside(a, i) {
        words::set_word(img, record_at(a, i) + place_of(f), v);
    }
}

pub fn clear_register(img: &mut [u8], a: Arena, i: u32, f: Register)
    ensures { words img.new ≡ clear_register a (words img.old) i f }
{
    set_register(img, a, i, 0, f);
}

// Register `f` of `i` names `j`, and register `g` of `j` names `i`.
#[tactic(auto, unfolding(crate::specs::Steps::connected))]
pub fn connect(img: &mut [u8], a: Arena, i: u32, j: u32, f: Register, g: Register)
    ensures { words img.new ≡ connected a (words img.old) i j f g }
{
    set_register(img, a, i, j, f);
    set_register(img, a, j, i, g);
}

// Register `f` of `i` and register `g` of `j` are cleared.
#[tactic(auto, unfolding(crate::specs::Steps::disconnected))]
pub fn disconnect(img: &mut [u8], a: Arena, i: u32, j: u32, f: Register, g: Register)
    ensures { words img.new ≡ disconnected a (words img.old) i j f g }
{
    clear_register(img, a, i, f);
    clear_register(img, a, j, g);
}

// ---- the header

// Size, bump and head are these.
#[tactic(auto, unfolding(crate::specs::Steps::set_counts))]
fn set_counts(img: &mut [u8], a: Arena, c: Counts)
    ensures { words img.new ≡ set_counts a (words img.old) c }
{
    let b = header_at(a);
    words::set_wide(img, b, c.size);
    words::set_word(img, b + 2, c.bump);
    words::set_word(img, b + 3, c.head);
}

// Makes an empty arena of blank memory: bump and head are 1.
#[tactic(auto, unfolding(crate::specs::Steps::initialized))]
pub fn initialize(img: &mut [u8], a: Arena)
    ensures { words img.new ≡ initialized a (words img.old) }
{
    let c = Counts {
        size: 0,
        bump: 1,
        head: 1,
    };
    set_counts(img, a, c);
}

// ---- records taken and freed: the caller knows the header, and is told what it becomes

// The counts after the head's record is taken, whose register 0 names `next`: at the bump, bump and head move on; else the head is what it named.
#[tactic(auto, unfolding(crate::specs::Steps::taken))]
fn take(c: Counts, next: u32) -> Counts
    ensures { result ≡ taken c next }
{
    let size = c.size.wrapping_add(1);
    if c.head == c.bump {
        let up = c.head.wrapping_add(1);
        return Counts {
            size,
            bump: up,
            head: up,
        };
    }
    Counts {
        size,
        head: next,
        ..c
    }
}

// Takes the head's record, last freed first, and answers the header afterwards; the header before was `c`, so that the record is `c.head`. Where
// the head names none, as in a full buffer, nothing changes. What the record is to hold is the caller's to write.
#[tactic(auto, unfolding(crate::specs::Steps::add_counts, crate::specs::Steps::add_image))]
pub fn add_node(img: &mut [u8], a: Arena, c: Counts) -> Counts
    ensures counts { result ≡ add_counts a (words img.old) c }
    ensures image { words img.new ≡ add_image a (words img.old) c }
{
    if is_inside(a, c.head) {
        let after = take(c, get_register(img, a, c.head, Register::Left));
        clear_register(img, a, c.head, Register::Left);
        set_counts(img, a, after);
        return after;
    }
    c
}

// The counts after record `i` is freed.
#[tactic(auto, unfolding(crate::specs::Steps::freed))]
fn free(c: Counts, i: u32) -> Counts
    ensures { result ≡ freed c i }
{
    Counts {
        size: c.size.wrapping_sub(1),
        head: i,
        ..c
    }
}

// Puts record `i` at the front of the chain and answers the header afterwards; the header before was `c`. Nothing changes where `i` names none. The
// record's other words stay as they are.
#[tactic(auto, unfolding(crate::specs::Steps::remove_counts, crate::specs::Steps::remove_image))]
pub fn remove_node(img: &mut [u8], a: Arena, i: u32, c: Counts) -> Counts
    ensures counts { result ≡ remove_counts a c i }
    ensures image { words img.new ≡ remove_image a (words img.old) i c }
{
    if is_inside(a, i) {
        let after = free(c, i);
        set_register(img, a, i, c.head, Register::Left);
        set_counts(img, a, after);
        return after;
    }
    c
}
