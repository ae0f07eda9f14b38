ghost use Rattle.std.specs.Prelude.{◌≡◌, ◌++◌, OnOk, IfSome};

use std::alloc::AllocError;
use std::fmt::Display;
use std::io::Write;

/// Appends to a text what `{}` writes of a value.
pub fn push_shown<T: Display>(text: &mut Vec<u8>, value: &T) -> Result<(), AllocError>
    ensures { IfSome (T.Display.output value.now) (λ shown. OnOk result (text.new.items ≡ text.old.items ++ shown)) }
{
    text.write_fmt(value).map_err(|_| AllocError)
}
