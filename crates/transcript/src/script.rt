ghost use Rattle.std.specs.Prelude.{◌≡◌, ◌++◌, drop, IfOk, OnOk, IfSome};
ghost use Rattle.std.specs.Io.KnownBytes.{Appends, IsAtEnd};
ghost use Rattle.transcript.specs.Script.{passed_over, answer_line, transcript};

use crate::answer::push_answer;
use notation::words::{find_byte, next_word};
use std::alloc::{AllocError, Global};
use std::io;
use std::io::{Read, Write};

/// What stands behind the first byte, if there is one.
fn behind_first<'a>(bytes: &'a [u8]) -> &'a [u8]
    ensures { result.now ≡ drop 1 bytes.now }
{
    match bytes {
        [_, more @ ..] => more,
        [] => bytes,
    }
}

/// Whether a line gives no answer: it has no word, or starts with `#`.
fn is_passed_over(line: &[u8]) -> bool
    ensures { result ≡ passed_over line.now }
{
    let (word, _) = next_word(line);
    word.is_empty() || matches!(line, [b'#', ..])
}

/// Appends the answer of one line, and a line feed.
fn push_line(text: &mut Vec<u8>, line: &[u8]) -> Result<(), AllocError>
    ensures { OnOk result (text.new.items ≡ text.old.items ++ answer_line line.now) }
{
    if is_passed_over(line) {
        return Ok(());
    }
    push_answer(text, line)?;
    text.push(b'\n')?;
    Ok(())
}

/// Runs a script: the answers of its lines, one after another.
pub fn run(heap: Global, script: &[u8]) -> Result<Vec<u8>, AllocError>
    ensures { IfOk result (λ text. text.items ≡ transcript script.now) }
{
    let mut text = Vec::new(heap);
    let mut rest = script;
    // No `for` over the standard `split`: with it a line that gives no answer took two thirds more time.
    while !rest.is_empty() {
        let (line, after) = rest.split_at(find_byte(rest, b'\n'));
        push_line(&mut text, line)?;
        rest = behind_first(after);
    }
    Ok(text)
}

/// Runs the script that a reader gives, to its end, and writes its transcript.
pub fn transcribe<R: Read, W: Write>(heap: Global, reader: &mut R, writer: &mut W) -> io::Result<()>
    ensures read { OnOk result (IsAtEnd (R.Read.remaining reader.new)) }
    ensures written { OnOk result (IfSome (R.Read.remaining reader.old) (λ script. Appends (W.Write.contents writer.old) (W.Write.contents writer.new) (transcript script))) }
{
    let mut script = Vec::new(heap);
    reader.read_to_end(&mut script)?;
    let text = run(heap, script.as_slice())?;
    writer.write_all(text.as_slice())
}
