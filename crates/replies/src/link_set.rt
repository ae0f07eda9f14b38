ghost use Rattle.std.specs.Prelude.{◌≡◌, ◌++◌, Some, OnOk};
ghost use Rattle.replies.specs.Sets.{set_text};

use notation::text::push_shown;
use std::alloc::AllocError;
use std::fmt;

/// A link set, a bit for each link: the numbers of its links in rising order, in braces, with commas between.
#[derive(Clone, Copy)]
pub(crate) struct LinkSet(pub(crate) u64);

impl fmt::Display for LinkSet {
    ghost output = { λ s. Some (set_text s.0) };

    fn fmt<W: fmt::Write>(&self, f: &mut fmt::Formatter<W>) -> fmt::Result {
        f.write_str("{")?;
        let links = self.0;
        let mut separator = "";
        for n in 0..64u64 {
            if (links >> n) % 2 == 1 {
                write!(f, "{separator}{n}")?;
                separator = ",";
            }
        }
        f.write_str("}")
    }
}

/// Appends a link set to a text.
pub fn push_set(text: &mut Vec<u8>, links: u64) -> Result<(), AllocError>
    ensures { OnOk result (text.new.items ≡ text.old.items ++ set_text links) }
{
    push_shown(text, &LinkSet(links))
}
