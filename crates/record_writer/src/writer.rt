ghost use Rattle.std.specs.Prelude.{◌≡◌, ◌+◌, ◌≤◌, true, false, length, drop, IfOk, Some, None, Ok, MatchResult, OnOk};
ghost use Rattle.leb128.specs.Buffers.{written};
ghost use Rattle.source.specs.Meaning.{scope_of, start_of, end_of};
ghost use Rattle.record.specs.Format.{record_of};
ghost use Rattle.record.specs.Forms.{RecordForm};
ghost use Rattle.record.specs.Decoding.{decode};
ghost use Rattle.record_writer.specs.Encoding.{names_fine, clients_fine, clocks_fine, refused};
ghost use Rattle.record_writer.specs.declared.fault.WriteFault.TheVariants.{Name, Client};

use crate::encode::Encode;
use crate::fault::WriteFault;
use leb128::field::NumberField;
use record::name::is_name;
use source::sticky_index::IndexScope;
use source::weak::LinkSource;

/// Refuses a name that may not be written.
fn check_name(scope: IndexScope<'_>) -> Result<(), WriteFault>
    ensures { MatchResult result (λ _. names_fine (scope_of scope.entry) ≡ true) (λ e. (names_fine (scope_of scope.entry) ≡ false) × (e ≡ Name)) }
{
    match scope {
        IndexScope::Root(name) if !is_name(name) => Err(WriteFault::Name),
        _ => Ok(()),
    }
}

/// Refuses a client that may not be written. A clock may be any.
fn check_client(scope: IndexScope<'_>) -> Result<(), WriteFault>
    ensures { MatchResult result (λ _. (clients_fine (scope_of scope.entry) ≡ true) × (clocks_fine (scope_of scope.entry) ≡ true)) (λ e. (clients_fine (scope_of scope.entry) ≡ false) × (e ≡ Client)) }
{
    let limit = NumberField::Client.limit();
    match scope {
        IndexScope::Relative(id) | IndexScope::Nested(id) if id.client >= limit => Err(
            WriteFault::Client,
        ),
        _ => Ok(()),
    }
}

// A place beside the bytes, since it may lie past their end, which a slice that begins there could not say.
/// Writes a source as a weak-link record into a buffer from a place on, and says how many bytes it took; or why not, and then nothing.
///
/// What is written is a form of the source's record, so the reader gives the source back.
pub fn encode_weak_link(
    source: &LinkSource<'_>,
    buf: &mut [u8],
    at: usize,
) -> Result<usize, WriteFault>
    ensures bytes { MatchResult result (λ n. (refused (length buf.old) at (start_of source.now) (end_of source.now) ≡ None) × (n ≡ length (record_of (start_of source.now) (end_of source.now))) × (buf.new ≡ written buf.old at (record_of (start_of source.now) (end_of source.now)))) (λ e. (refused (length buf.old) at (start_of source.now) (end_of source.now) ≡ Some e) × (buf.new ≡ buf.old)) }
    ensures within { IfOk result (λ n. at + n ≤ length buf.old) }
    ensures formed { OnOk result (RecordForm (record_of (start_of source.now) (end_of source.now)) (start_of source.now) (end_of source.now)) }
    ensures back { IfOk result (λ n. decode (drop at buf.new) ≡ Ok ((start_of source.now, end_of source.now), n)) }
{
    let start = source.start().scope;
    let end = source.end().scope;
    check_name(start)?;
    check_name(end)?;
    check_client(start)?;
    check_client(end)?;
    if at > buf.len() || buf.len() - at < source.encoded_len() {
        return Err(WriteFault::Room);
    }
    Ok(source.put(&mut buf[at..]))
}
