ghost use Rattle.std.specs.Prelude.{◌≡◌, ◌≤◌, length};
ghost use Rattle.std.specs.List.{prefix_len};
ghost use Rattle.std.specs.Iterator.{YieldsFirstRef, item_count};
ghost use Rattle.std.specs.Str.{bytes_eq};
ghost use Rattle.notation.specs.Words.{is_blank, up_to, first_word, after_word, words_in};

/// How many blanks a line begins with.
fn count_blanks(line: &[u8]) -> usize
    ensures value { result ≡ prefix_len is_blank line.now }
    ensures within { result ≤ length line.now }
{
    line.iter().take_while(|b| **b == b' ').count()
}

/// How many bytes stand before the first one that is `byte`; all, where none is.
pub fn find_byte(bytes: &[u8], byte: u8) -> usize
    ensures value { result ≡ up_to byte bytes.now }
    ensures within { result ≤ length bytes.now }
{
    bytes.iter().take_while(|b| **b != byte).count()
}

/// The first word of a line, empty where it has none, and what stands after it.
pub fn next_word<'a>(line: &'a [u8]) -> (&'a [u8], &'a [u8])
    ensures { (result.0.now ≡ first_word line.now) × (result.1.now ≡ after_word line.now) }
{
    let (_, rest) = line.split_at(count_blanks(line));
    rest.split_at(find_byte(rest, b' '))
}

/// The words of a line, one after another.
#[derive(Drop)]
pub(crate) struct Words<'a>(pub(crate) &'a [u8]);

impl<'a> Iterator for Words<'a> {
    type Item = &'a [u8];

    ghost next_gives = { YieldsFirstRef (λ s. words_in s.0.now) };

    ghost remaining = { item_count (λ s. words_in s.0.now) };

    fn next(&mut self) -> Option<&'a [u8]> {
        let (word, rest) = next_word(self.0);
        if word.is_empty() {
            return None;
        }
        self.0 = rest;
        Some(word)
    }
}

// A name for `==`, so that those who tell words apart cite one clause.
/// Whether a word is just these bytes.
pub fn is_word(word: &[u8], bytes: &[u8]) -> bool
    ensures { result ≡ bytes_eq word.now bytes.now }
{
    word == bytes
}
