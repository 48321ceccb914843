// What a line asks: its first byte picks the command, one space parts the fields, and nothing else stands on the line.
ghost use Rattle.std.specs.Prelude.{◌≡◌, unwrap_or};
ghost use Rattle.texts.specs.declared.Command.TheVariants.{Bad};
ghost use Rattle.texts.specs.Lines.{one_field, two_fields, command_of};

use crate::Command;
use crate::digits::field_at;
use keys::Key;
use records::Value;

// A key behind the letter.
#[tactic(auto, using(std::proofs::lemmas::Bool::Decides::nat_tests), unfolding(crate::specs::Lines::one_field))]
fn one_field(line: &[u8]) -> Option<Key>
    ensures { result ≡ one_field line.now }
{
    if line.len() != 34 || line[1] != b' ' {
        return None;
    }
    let (high, low) = field_at(line, 2)?;
    Some(Key { high, low })
}

// A key and a value behind the letter.
#[tactic(auto, using(std::proofs::lemmas::Bool::Decides::nat_tests), unfolding(crate::specs::Lines::two_fields, crate::specs::Lines::both))]
fn two_fields(line: &[u8]) -> Option<(Key, Value)>
    ensures { result ≡ two_fields line.now }
{
    if line.len() != 67 || line[1] != b' ' || line[34] != b' ' {
        return None;
    }
    let (high, low) = field_at(line, 2)?;
    let (first, second) = field_at(line, 35)?;
    Some((Key { high, low }, Value { first, second }))
}

// What a line asks, where it asks something.
#[tactic(auto, using(std::proofs::lemmas::Bool::Decides::nat_tests), unfolding(crate::specs::Lines::command_of, crate::specs::Lines::letter_asked, crate::specs::Lines::alone_asked, crate::specs::Lines::key_asked, crate::specs::Lines::both_asked))]
fn asked(line: &[u8]) -> Option<Command>
    ensures { unwrap_or result Bad ≡ command_of line.now }
{
    match line {
        [b'i', ..] => {
            let (key, v) = two_fields(line)?;
            Some(Command::Insert(key, v))
        }
        [b'r', ..] => Some(Command::Remove(one_field(line)?)),
        [b'g', ..] => Some(Command::Get(one_field(line)?)),
        [b'w', ..] => {
            let (key, v) = two_fields(line)?;
            Some(Command::Write(key, v))
        }
        [b'n'] => Some(Command::Smallest),
        [b'x'] => Some(Command::Largest),
        [b'a'] => Some(Command::All),
        _ => None,
    }
}

// What a line asks; anything else is bad.
pub fn parse(line: &[u8]) -> Command
    ensures { result ≡ command_of line.now }
{
    asked(line).unwrap_or(Command::Bad)
}
