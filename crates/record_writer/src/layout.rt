ghost use Rattle.std.specs.Prelude.{◌≡◌};
ghost use Rattle.source.specs.Meaning.{scope_of, start_of, end_of};
ghost use Rattle.record.specs.Format.{id_bytes, scope_bytes, record_of};

use crate::encode::Encode;
use crate::flags::{flags_of, is_single};
use source::id::Id;
use source::sticky_index::IndexScope;
use source::weak::LinkSource;

/// The first byte of a weak link.
const KIND: u8 = 7;

/// A client, and then a clock.
impl Encode for Id {
    ghost bytes = { λ id. id_bytes id.client id.clock };

    fn encoded_len(&self) -> usize {
        (self.client, u64::from(self.clock)).encoded_len()
    }

    fn put(&self, part: &mut [u8]) -> usize {
        (self.client, u64::from(self.clock)).put(part)
    }
}

/// An id; or a name, its byte count first.
impl Encode for IndexScope<'_> {
    ghost bytes = { λ scope. scope_bytes (scope_of scope) };

    fn encoded_len(&self) -> usize {
        match *self {
            IndexScope::Relative(id) | IndexScope::Nested(id) => id.encoded_len(),
            IndexScope::Root(name) => (name.len() as u64, name).encoded_len(),
        }
    }

    fn put(&self, part: &mut [u8]) -> usize {
        match *self {
            IndexScope::Relative(id) | IndexScope::Nested(id) => id.put(part),
            IndexScope::Root(name) => (name.len() as u64, name).put(part),
        }
    }
}

/// The kind, the flags, the start, and the end unless the source is single.
type Parts<'a> = (u8, (u8, (IndexScope<'a>, Option<IndexScope<'a>>)));

fn parts_of<'a>(source: &LinkSource<'a>) -> Parts<'a>
    ensures { ⟦<Parts<'a> as Encode>⟧.bytes result ≡ record_of (start_of source.now) (end_of source.now) }
{
    let start = source.start();
    let end = source.end();
    let written_end = (!is_single(start.scope, end.scope)).then_some(end.scope);
    (KIND, (flags_of(start, end), (start.scope, written_end)))
}

/// A record: its parts.
impl Encode for LinkSource<'_> {
    ghost bytes = { λ source. record_of (start_of source) (end_of source) };

    fn encoded_len(&self) -> usize {
        parts_of(self).encoded_len()
    }

    fn put(&self, part: &mut [u8]) -> usize {
        parts_of(self).put(part)
    }
}
