// Numbers out of a line: lowercase hex digits, high or first word first.
ghost use Rattle.std.specs.Prelude.{◌≡◌, ◌+◌, ◌≤◌, length, cond, Some, None};
ghost use Rattle.texts.specs.Digits.{is_digit, digit_of};
ghost use Rattle.texts.specs.Lines.{word_at, field_at};

// A lowercase hex digit; it is no `match` on ranges, as `digit` says.
#[tactic(auto, unfolding(crate::specs::Digits::is_digit))]
fn is_digit(b: u8) -> bool
    ensures { result ≡ is_digit b }
{
    ((b'0' <= b) & (b <= b'9')) | ((b'a' <= b) & (b <= b'f'))
}

// What a lowercase hex digit stands for. `to_digit` and `from_str_radix` would take upper-case digits too.
// Tried and slower: a `match` on ranges of bytes, which branches on the kind of each digit; the program took 1.6 times as long on long inputs.
#[tactic(auto, using(std::proofs::lemmas::Bool::Decides::nat_tests), unfolding(crate::specs::Digits::is_digit, crate::specs::Digits::digit_of))]
fn digit(b: u8) -> Option<u64>
    ensures { result ≡ cond (is_digit b) (Some (digit_of b)) None }
{
    if !is_digit(b) {
        return None;
    }
    let value = if b < b'a' { b - b'0' } else { b - b'a' + 10 };
    Some(value as u64)
}

// Sixteen digits, most significant first; nothing where a byte is no digit.
fn word_at(line: &[u8], at: usize) -> Option<u64>
    requires { at + 16 ≤ length line.now }
    ensures { result ≡ word_at line.now at }
{
    let mut value: u64 = 0;
    for b in &line[at..at + 16] {
        value = 16 * value + digit(*b)?;
    }
    Some(value)
}

// The two words of a field.
pub fn field_at(line: &[u8], at: usize) -> Option<(u64, u64)>
    requires { at + 32 ≤ length line.now }
    ensures { result ≡ field_at line.now at }
{
    let first = word_at(line, at)?;
    let second = word_at(line, at + 16)?;
    Some((first, second))
}
