// A lent buffer of bytes, read and written as 32-bit words, lowest byte first: the image, the scratch and the outputs of the map.
//
// Every contract but that of `put` speaks of the buffer's words, `words bytes.now`, and of nothing else; `put` is told a
// byte's place and speaks of bytes. Past the last word a read gives 0 and a store does nothing, so that no caller carries a
// bound; `put`, `four_zeros` and the functions whose names end in `_in` test no place and ask the caller to know that it lies inside.
#![tactic(auto)]

ghost use Rattle.std.specs.Prelude.{◌≡◌, ◌+◌, ◌*◌, ◌<◌, ◌≤◌, length, get_or, set, replicate};
ghost use Rattle.words.specs.Words.{words, put_word};
ghost use Rattle.words.specs.Wide.{wide_at, set_wide};
ghost use Rattle.words.specs.Zeros.{zeros_at};

// The four bytes of a word from a byte's place on, lowest first: one store.
pub fn put(bytes: &mut [u8], at: usize, v: u32)
    requires { at + 4 ≤ length bytes.old }
    ensures { bytes.new ≡ put_word bytes.old at v }
{
    bytes[at..at + 4].copy_from_slice(&v.to_le_bytes());
}

// How many whole words the buffer has.
#[tactic(auto, using(crate::specs::Words::words_length))]
pub fn count(bytes: &[u8]) -> usize
    ensures { result ≡ length (words bytes.now) }
{
    bytes.len() / 4
}

// The word at a place; past the end it is 0.
#[tactic(auto, using(crate::specs::Words::words_length, crate::specs::Words::words_past))]
pub fn word(bytes: &[u8], at: usize) -> u32
    ensures { result ≡ get_or (words bytes.now) at 0 }
{
    if at < count(bytes) {
        return word_in(bytes, at);
    }
    0
}

// The word at a place that the caller knows to lie inside: one load of its four bytes.
#[tactic(auto, using(crate::specs::Words::words_length, crate::specs::Words::words_at))]
pub fn word_in(bytes: &[u8], at: usize) -> u32
    requires { at < length (words bytes.now) }
    ensures { result ≡ get_or (words bytes.now) at 0 }
{
    let p = 4 * at;
    u32::from_le_bytes([bytes[p], bytes[p + 1], bytes[p + 2], bytes[p + 3]])
}

// Stores a word; past the end it stores nothing.
#[tactic(auto, using(crate::specs::Words::words_length, crate::specs::Words::words_kept))]
pub fn set_word(bytes: &mut [u8], at: usize, v: u32)
    ensures { words bytes.new ≡ set (words bytes.old) at v }
{
    if at < count(bytes) {
        set_word_in(bytes, at, v);
    }
}

// Stores a word at a place that the caller knows to lie inside.
#[tactic(auto, using(crate::specs::Words::words_put))]
pub fn set_word_in(bytes: &mut [u8], at: usize, v: u32)
    requires { 4 * at + 4 ≤ length bytes.old }
    ensures { words bytes.new ≡ set (words bytes.old) at v }
{
    put(bytes, 4 * at, v);
}

fn joined(low: u32, high: u32) -> u64
    ensures { result ≡ low + 4294967296 * high }
{
    u64::from(low) + 4294967296 * u64::from(high)
}

// Two words as one 64-bit number, the low word first; past the end it is 0.
#[tactic(auto, using(crate::specs::Words::words_length, crate::specs::Wide::wide_past), unfolding(crate::specs::Wide::wide_at))]
pub fn wide(bytes: &[u8], at: usize) -> u64
    ensures { result ≡ wide_at (words bytes.now) at }
{
    if at < count(bytes) {
        return joined(word_in(bytes, at), word(bytes, at + 1));
    }
    0
}

// The same at a place that the caller knows to lie inside.
#[tactic(auto, using(crate::specs::Words::words_length), unfolding(crate::specs::Wide::wide_at))]
pub fn wide_in(bytes: &[u8], at: usize) -> u64
    requires { at + 2 ≤ length (words bytes.now) }
    ensures { result ≡ wide_at (words bytes.now) at }
{
    joined(word_in(bytes, at), word_in(bytes, at + 1))
}

// Stores a 64-bit number in two words, the low word first; what lies past the end is not stored. Two words and not eight
// bytes, by % and /: the second word is stored where there is one, and the definition is over words.
#[tactic(auto, using(crate::specs::Words::words_length, crate::specs::Wide::set_wide_past), unfolding(crate::specs::Wide::set_wide))]
pub fn set_wide(bytes: &mut [u8], at: usize, v: u64)
    ensures { words bytes.new ≡ set_wide (words bytes.old) at v }
{
    if at < count(bytes) {
        set_word(bytes, at, (v % 4294967296) as u32);
        set_word(bytes, at + 1, (v / 4294967296) as u32);
    }
}

// The same at a place that the caller knows to lie inside.
#[tactic(auto, unfolding(crate::specs::Wide::set_wide))]
pub fn set_wide_in(bytes: &mut [u8], at: usize, v: u64)
    requires { 4 * at + 8 ≤ length bytes.old }
    ensures { words bytes.new ≡ set_wide (words bytes.old) at v }
{
    set_word_in(bytes, at, (v % 4294967296) as u32);
    set_word_in(bytes, at + 1, (v / 4294967296) as u32);
}

// Whether the four words from a place that the caller knows to lie inside are all 0: two comparisons, and no loop.
#[tactic(auto, using(crate::specs::Words::words_length, crate::specs::Zeros::four_zeros))]
pub fn four_zeros(bytes: &[u8], at: usize) -> bool
    requires { at + 4 ≤ length (words bytes.now) }
    ensures { result ≡ zeros_at (words bytes.now) at 4 }
{
    (wide_in(bytes, at) == 0) & (wide_in(bytes, at + 2) == 0)
}

// Whether so many words from a place on are all 0; what lies past the end is.
pub fn zeros(bytes: &[u8], at: usize, many: usize) -> bool
    ensures { result ≡ zeros_at (words bytes.now) at many }
{
    let end = at.saturating_add(many).min(count(bytes));
    for i in at..end {
        if word_in(bytes, i) != 0 {
            return false;
        }
    }
    true
}

// Every word becomes 0. In place of a loop `fill` would be a call of memset and one store more.
#[tactic(auto, using(crate::specs::Words::words_length, crate::specs::Zeros::clear_more))]
pub fn clear(bytes: &mut [u8])
    ensures { words bytes.new ≡ replicate (length (words bytes.old)) 0 }
{
    for i in 0..count(bytes) {
        set_word_in(bytes, i, 0);
    }
}
