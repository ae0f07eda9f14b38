ghost use Rattle.std.specs.Prelude.{◌≡◌, length, Some, MatchResult};
ghost use Rattle.source.specs.Meaning.{start_of, end_of};
ghost use Rattle.record.specs.Format.{record_of};
ghost use Rattle.record_writer.specs.Encoding.{refused};

use crate::fault::WriteFault;
use crate::writer::encode_weak_link;
use record::reader::decode_weak_link;
use source::weak::LinkSource;

// A place beside the bytes, since it may lie past their end, which a slice that begins there could not say.
/// Writes a source into a buffer from a place on, and reads it from there: that very source, and as many bytes as were written.
pub fn write_and_read<'b>(
    source: &LinkSource<'_>,
    buf: &'b mut [u8],
    at: usize,
) -> Result<(LinkSource<'b>, usize), WriteFault>
    ensures { MatchResult result (λ p. (start_of p.0 ≡ start_of source.now) × (end_of p.0 ≡ end_of source.now) × (p.1 ≡ length (record_of (start_of source.now) (end_of source.now)))) (λ e. refused (length buf.old) at (start_of source.now) (end_of source.now) ≡ Some e) }
{
    encode_weak_link(source, buf, at)?;
    Ok(decode_weak_link(&buf[at..]).unwrap())
}
