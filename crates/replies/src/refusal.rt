ghost use Rattle.std.specs.Prelude.{◌≡◌, ◌++◌, OnOk};
ghost use Rattle.replies.specs.Refusals.{refusal_text, layer_text, fault_text};

use notation::text::push_shown;
use record::fault::{Layer, RecordFault};
use std::alloc::AllocError;

// By its number, which is all that the script says of a refusal, whatever it refuses.
/// Appends `refused` and a refusal's number.
pub fn push_refusal(text: &mut Vec<u8>, number: u8) -> Result<(), AllocError>
    ensures { OnOk result (text.new.items ≡ text.old.items ++ refusal_text number) }
{
    push_shown(text, &format_args!("refused {number}"))
}

fn layer_name(layer: Layer) -> &'static str
    ensures { result.now ≡ layer_text layer }
{
    match layer {
        Layer::Number => "number",
        Layer::Record => "record",
    }
}

/// Appends a record's refusal: its number, its offset and its layer.
pub fn push_fault(text: &mut Vec<u8>, fault: RecordFault) -> Result<(), AllocError>
    ensures { OnOk result (text.new.items ≡ text.old.items ++ fault_text fault) }
{
    push_refusal(text, fault.number())?;
    let offset = fault.offset();
    let layer = layer_name(fault.layer());
    push_shown(text, &format_args!(" at {offset} {layer}"))
}
