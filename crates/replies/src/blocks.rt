ghost use Rattle.std.specs.Prelude.{◌≡◌, ◌++◌, Some, OnOk};
ghost use Rattle.std.specs.Option.{option_map};
ghost use Rattle.source.specs.Meaning.{id_of};
ghost use Rattle.replies.specs.Blocks.{mark_text, block_text, anchor_text, origin_text};

use crate::link_set::LinkSet;
use notation::text::push_shown;
use source::id::Id;
use std::alloc::AllocError;
use std::fmt;

/// `x` for a removed block.
fn mark_of(removed: bool) -> &'static str
    ensures { result.now ≡ mark_text removed }
{
    if removed { "x" } else { "" }
}

/// Appends a blank and a block: its first id, its length, whether it is removed, and its link set.
pub fn push_block(
    text: &mut Vec<u8>,
    first: Id,
    len: u32,
    removed: bool,
    links: u64,
) -> Result<(), AllocError>
    ensures { OnOk result (text.new.items ≡ text.old.items ++ block_text (id_of first) len removed links) }
{
    let mark = mark_of(removed);
    let links = LinkSet(links);
    push_shown(text, &format_args!(" {first}+{len}{mark}{links}"))
}

/// An origin: its id, or a dot where there is none.
#[derive(Clone, Copy)]
struct Origin(Option<Id>);

impl fmt::Display for Origin {
    ghost output = { λ a. Some (anchor_text (option_map id_of a.0)) };

    fn fmt<W: fmt::Write>(&self, f: &mut fmt::Formatter<W>) -> fmt::Result {
        match self.0 {
            Some(id) => write!(f, "{id}"),
            None => write!(f, "."),
        }
    }
}

/// Appends a blank and a block's origins: its first id, its origin and its right origin.
pub fn push_origin(
    text: &mut Vec<u8>,
    first: Id,
    origin: Option<Id>,
    right: Option<Id>,
) -> Result<(), AllocError>
    ensures { OnOk result (text.new.items ≡ text.old.items ++ origin_text (id_of first) (option_map id_of origin) (option_map id_of right)) }
{
    let left = Origin(origin);
    let right = Origin(right);
    push_shown(text, &format_args!(" {first}<{left}>{right}"))
}
