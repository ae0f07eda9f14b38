// Making a content of any kind from a recipe of the kind's own.
ghost use Rattle.making.specs.Recipes.{Making, Recipe};

use crate::refusal::Refusal;
use content::content::Content;

/// A new content, and how many words are used with it.
#[derive(Clone, Copy, PartialEq, Eq, Debug)]
pub struct Made<C> {
    pub content: C,
    pub used: u32,
}

/// A kind whose contents are made from recipes `R`.
pub trait Make<R>: Content {
    // What a recipe asks for.
    ghost asks: { R → Recipe };

    /// Makes what the recipe asks for. It appends to the first `used` words and changes none of them;
    /// a refusal changes nothing.
    // Two arguments and no table of its own: the words are lent for one call, and the count stays with the document.
    fn make(recipe: R, words: &mut [u64], used: u32) -> Result<Made<Self>, Refusal>
        ensures { Making Self.Content (asks recipe) words.old used words.new result };
}
