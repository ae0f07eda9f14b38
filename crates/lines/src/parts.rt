ghost use Rattle.std.specs.Prelude.{◌≡◌};
ghost use Rattle.std.specs.Option.{option_map};
ghost use Rattle.source.specs.Meaning.{id_of};
ghost use Rattle.lines.specs.Parts.{ended, front, counted, lone_id};

use notation::numeral::read_number;
use notation::words::next_word;
use source::id::Id;
use spelling::side::read_id;

/// Whether no word is left.
pub(crate) fn is_ended(line: &[u8]) -> bool
    ensures { result ≡ ended line.now }
{
    let (word, _) = next_word(line);
    word.is_empty()
}

/// The number that a line begins with, and what stands after it.
pub(crate) fn read_front<'a>(line: &'a [u8]) -> Option<(u64, &'a [u8])>
    ensures { option_map (λ p. (p.0, p.1.now)) result ≡ front line.now }
{
    let (word, rest) = next_word(line);
    Some((read_number(word)?, rest))
}

/// So many numbers, and nothing more.
pub(crate) fn read_numbers<const N: usize>(line: &[u8]) -> Option<[u64; N]>
    ensures { result ≡ counted N line.now }
{
    let mut numbers = [0u64; N];
    let mut rest = line;
    for number in &mut numbers {
        let (front, more) = read_front(rest)?;
        *number = front;
        rest = more;
    }
    is_ended(rest).then_some(numbers)
}

/// The id that a line says, and nothing more.
pub(crate) fn read_lone_id(line: &[u8]) -> Option<Id>
    ensures { option_map id_of result ≡ lone_id line.now }
{
    let (word, rest) = next_word(line);
    if is_ended(rest) { read_id(word) } else { None }
}
