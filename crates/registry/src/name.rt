ghost use Rattle.std.specs.Prelude.{◌≡◌, take};
ghost use Rattle.std.specs.Str.{bytes_eq};
ghost use Rattle.registry.specs.Name.{name_of};

use crate::fixed_list::FixedList;

/// A list's name, at most 32 bytes.
#[derive(Clone, Copy)]
pub struct Name {
    bytes: FixedList<u8, 32>,
}

impl Name {
    /// The name of these bytes; of more than 32, the first 32.
    pub fn new(bytes: &[u8]) -> Name
        ensures { name_of result ≡ take 32 bytes.now }
    {
        Name {
            bytes: FixedList::from_slice(bytes, 0),
        }
    }

    /// Whether it is this name. A method, since `==` compares two values of one type alone.
    pub fn is(&self, name: &[u8]) -> bool
        ensures { result ≡ bytes_eq name.now (name_of self.now) }
    {
        name == self.bytes.as_slice()
    }
}
