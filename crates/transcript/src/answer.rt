ghost use Rattle.std.specs.Prelude.{◌≡◌, ◌++◌, Some, codes, OnOk};
ghost use Rattle.source.specs.Meaning.{start_of, end_of};
ghost use Rattle.record_writer.specs.Encoding.{refused};
ghost use Rattle.record.specs.Decoding.{decode};
ghost use Rattle.notation.specs.Hex.{hex_of};
ghost use Rattle.lines.specs.Calls.{call_of, call_in};
ghost use Rattle.transcript.specs.Answers.{room_for, write_text, decode_text, answer_to};

use crate::pieces::push_pieces;
use lines::call::{Call, read_call};
use notation::hex::{push_hex, read_hex};
use notation::text::push_shown;
use record::reader::decode_weak_link;
use record_writer::writer::encode_weak_link;
use replies::refusal::{push_fault, push_refusal};
use source::weak::LinkSource;
use spelling::side::push_source;
use std::alloc::AllocError;

fn push_bytes(text: &mut Vec<u8>, bytes: &[u8]) -> Result<(), AllocError>
    ensures { OnOk result (text.new.items ≡ text.old.items ++ (codes "record " ++ hex_of bytes.now)) }
{
    text.extend_from_slice(b"record ")?;
    push_hex(text, bytes)
}

/// Appends the record of a source, or why it has none.
fn push_record(text: &mut Vec<u8>, source: &LinkSource<'_>) -> Result<(), AllocError>
    ensures { OnOk result (text.new.items ≡ text.old.items ++ write_text (start_of source.now) (end_of source.now) (refused room_for 0 (start_of source.now) (end_of source.now))) }
{
    // The writer allocates nothing: it fills a buffer of its caller's.
    let mut buf = [0u8; 96];
    match encode_weak_link(source, &mut buf, 0) {
        Ok(n) => push_bytes(text, &buf[0..n]),
        Err(fault) => push_refusal(text, fault.number()),
    }
}

/// Appends the source that a record holds and how many bytes it takes, or why it holds none.
fn push_decoded(text: &mut Vec<u8>, bytes: &[u8]) -> Result<(), AllocError>
    ensures { OnOk result (text.new.items ≡ text.old.items ++ decode_text (decode bytes.now)) }
{
    match decode_weak_link(bytes) {
        Ok((source, n)) => {
            text.extend_from_slice(b"source ")?;
            push_source(text, &source)?;
            push_shown(text, &format_args!(" bytes {n}"))
        }
        Err(fault) => push_fault(text, fault),
    }
}

/// Appends the answer to a call.
fn push_call(text: &mut Vec<u8>, call: &Call<'_>) -> Result<(), AllocError>
    ensures { OnOk result (text.new.items ≡ text.old.items ++ answer_to (Some (call_of call.now))) }
{
    match call {
        Call::Write(source) => push_record(text, source),
        Call::Decode(word) => {
            let bytes = read_hex(*text.allocator(), word)?;
            push_decoded(text, bytes.as_slice())
        }
        Call::Pieces(offset, wanted) => push_pieces(text, *offset, wanted),
    }
}

/// Appends the answer to a line: to the call that it says, or that it says none.
pub fn push_answer(text: &mut Vec<u8>, line: &[u8]) -> Result<(), AllocError>
    ensures { OnOk result (text.new.items ≡ text.old.items ++ answer_to (call_in line.now)) }
{
    match read_call(*text.allocator(), line)? {
        Some(call) => push_call(text, &call),
        None => text.extend_from_slice(b"no call"),
    }
}
