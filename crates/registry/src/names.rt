ghost use Rattle.std.specs.Prelude.{◌≡◌, ◌<◌, true, [], length, nat_lt};
ghost use Rattle.std.specs.Str.{bytes_eq};
ghost use Rattle.registry.specs.Names.{open_refusal, names_of, opened, Opening};
ghost use Rattle.registry.specs.Places.{place_by};

use crate::fixed_list::FixedList;
use crate::name::Name;
use record::name::is_name;

/// The names of the open lists, in the order of their opening: a list's number is the place of its name.
#[derive(Clone, Copy)]
pub struct Names {
    names: FixedList<Name, 16>,
}

/// Why no list is opened.
#[derive(Clone, Copy, PartialEq, Eq, Debug)]
pub enum OpenRefusal {
    /// The name is empty, over 32 bytes, or has a byte that is not printable.
    Name,
    /// A new name, and 16 lists are open.
    Full,
}

impl OpenRefusal {
    // A method, and no `From<OpenRefusal> for u8`: where it is called, `number()` says what the byte is, and `into()` would not.
    /// The refusal's number.
    pub fn number(self) -> u8
        ensures { result ≡ open_refusal self }
    {
        match self {
            OpenRefusal::Name => 1,
            OpenRefusal::Full => 2,
        }
    }
}

impl Names {
    /// No list is open.
    pub fn new() -> Names
        ensures { names_of result ≡ [] }
    {
        Names {
            names: FixedList::new(Name::new(b"")),
        }
    }

    /// Whether a list of that number is open.
    pub fn is_open(&self, list: u64) -> bool
        ensures answer { result ≡ nat_lt list (length (names_of self.now)) }
        ensures few { result ≡ true → list < 16 }
    {
        list < self.names.as_slice().len() as u64
    }

    /// The number of the open list of that name.
    pub fn number_of(&self, name: &[u8]) -> Option<u8>
        ensures { result ≡ place_by (bytes_eq name.now) (names_of self.now) }
    {
        let names = self.names.as_slice();
        names
            .iter()
            .position(|known| known.is(name))
            .map(|place| place as u8)
    }

    /// Opens a list, and tells its number; a known name's its old one.
    pub fn open(&mut self, name: &[u8]) -> Result<u8, OpenRefusal>
        ensures answer { result ≡ opened name.now (names_of self.old) }
        ensures names { Opening name.now self.old self.new result }
    {
        if !is_name(name) {
            return Err(OpenRefusal::Name);
        }
        if let Some(known) = self.number_of(name) {
            return Ok(known);
        }
        let place = self.names.push(Name::new(name)).ok_or(OpenRefusal::Full)?;
        Ok(place as u8)
    }
}
