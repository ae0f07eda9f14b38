// The table of words: those that are used stand first.
ghost use Rattle.std.specs.Prelude.{◌≡◌, ◌+◌, ◌≤◌, length};
ghost use Rattle.making.specs.Recipes.{appended};

// Appends `more` to the used words.
pub(crate) fn append(more: &[u64], words: &mut [u64], used: u32)
    requires { used + length more.now ≤ length words.old }
    ensures { words.new ≡ appended words.old used more.now }
{
    let at = used as usize;
    words[at..at + more.len()].copy_from_slice(more);
}
