ghost use Rattle.std.specs.Prelude.{◌≡◌, length, take, cond, Some, None, MatchResult};
ghost use Rattle.record.specs.Names.{printable, all_printable, name_count, name_fine};
ghost use Rattle.record.specs.Decoding.{name_fault};
ghost use Rattle.record.specs.declared.fault.RecordCause.TheVariants.{Name};

use crate::fault::RecordCause;

/// Whether a byte may stand in a name.
fn is_printable(b: u8) -> bool
    ensures { result ≡ printable b }
{
    matches!(b, 0x20..=0x7E)
}

fn are_printable(bytes: &[u8]) -> bool
    ensures { result ≡ all_printable bytes.now }
{
    // A loop, since `bytes.iter().all(..)` takes twice the time.
    for b in bytes {
        if !is_printable(*b) {
            return false;
        }
    }
    true
}

/// Whether a name may have so many bytes.
fn is_name_count(count: usize) -> bool
    ensures { result ≡ name_count count }
{
    matches!(count, 1..=32)
}

/// Whether a list may have this name: 1 to 32 bytes, each from 20 to 7E hexadecimal.
pub fn is_name(name: &[u8]) -> bool
    ensures { result ≡ name_fine name.now }
{
    is_name_count(name.len()) && are_printable(name)
}

/// The first `count` bytes as a name, or the first fault: of the count, of a byte, or of a missing one.
#[tactic(auto, using(crate::proofs::NameLaws::name_faults))]
pub(crate) fn take_name(bytes: &[u8], count: usize) -> Result<&[u8], RecordCause>
    ensures { let fault = cond (name_count count) (name_fault count bytes.now) (Some Name) in MatchResult result (λ name. (fault ≡ None) × (name.now ≡ take count bytes.now) × (length name.now ≡ count)) (λ cause. fault ≡ Some cause) }
{
    match bytes.get(..count) {
        Some(name) if is_name(name) => Ok(name),
        None if is_name_count(count) && are_printable(bytes) => Err(RecordCause::Ends),
        _ => Err(RecordCause::Name),
    }
}
