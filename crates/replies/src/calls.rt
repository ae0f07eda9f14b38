ghost use Rattle.std.specs.Prelude.{◌≡◌, ◌++◌, OnOk};
ghost use Rattle.source.specs.Meaning.{id_of};
ghost use Rattle.replies.specs.Calls.{list_text, inserted_text, removed_text, links_text};

use crate::link_set::LinkSet;
use notation::text::push_shown;
use source::id::Id;
use std::alloc::AllocError;

/// Appends `list` and a list's number.
pub fn push_list(text: &mut Vec<u8>, list: u8) -> Result<(), AllocError>
    ensures { OnOk result (text.new.items ≡ text.old.items ++ list_text list) }
{
    push_shown(text, &format_args!("list {list}"))
}

/// Appends `inserted`, the first id of what was inserted, and its links.
pub fn push_inserted(text: &mut Vec<u8>, id: Id, links: u64) -> Result<(), AllocError>
    ensures { OnOk result (text.new.items ≡ text.old.items ++ inserted_text (id_of id) links) }
{
    let links = LinkSet(links);
    push_shown(text, &format_args!("inserted {id} links {links}"))
}

/// Appends `removed`, how many units were removed, and the links that held one.
pub fn push_removed(text: &mut Vec<u8>, units: u32, links: u64) -> Result<(), AllocError>
    ensures { OnOk result (text.new.items ≡ text.old.items ++ removed_text units links) }
{
    let links = LinkSet(links);
    push_shown(text, &format_args!("removed {units} links {links}"))
}

/// Appends `links` and how many there are.
pub fn push_links(text: &mut Vec<u8>, count: u32) -> Result<(), AllocError>
    ensures { OnOk result (text.new.items ≡ text.old.items ++ links_text count) }
{
    push_shown(text, &format_args!("links {count}"))
}
