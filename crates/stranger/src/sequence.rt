// Makings of a kind that is not known here, one after another.
ghost use Rattle.std.specs.Prelude.{◌≡◌, ◌≤◌, true, false, length, take, is_some, Some, None, ◌==◌};
ghost use Rattle.making.specs.Recipes.{judged};
ghost use Rattle.stranger.specs.Sequences.{table, next, unless_refused, Kept, Sequence};

use content::content::Content;
use making::make::Make;

// Makes what the recipe asks for, and counts the words that are then used.
fn make_one<R: Copy, C: Make<R>>(recipe: &R, words: &mut [u64], used: &mut u32) -> Option<C>
    ensures exact { table words.new used.new ≡ next (C.Make.asks recipe.now) (table words.old used.old) }
    ensures chosen { is_some result ≡ unless_refused (judged (C.Make.asks recipe.now) words.old used.old) true false }
    ensures more { used.old ≤ used.new }
    ensures kept { take used.old words.new ≡ take used.old words.old }
    ensures made { Kept C.Content C.Make.asks (take used.new words.new) recipe.now result }
{
    let Ok(made) = C::make(*recipe, words, *used) else {
        return None;
    };
    *used = made.used;
    Some(made.content)
}

// Makes what each recipe asks for.
fn make_all<R: Copy, C: Make<R>>(
    recipes: &[R],
    words: &mut [u64],
    used: u32,
    made: &mut [Option<C>],
) -> u32
    requires { length made.old ≡ length recipes.now }
    ensures { Sequence C.Content C.Make.asks recipes.now words.old used words.new result made.new }
{
    let mut n = used;
    for (i, recipe) in recipes.iter().enumerate() {
        // Written by its place: of what is written through a zipped `iter_mut` the proof knows nothing.
        made[i] = make_one(recipe, words, &mut n);
    }
    n
}

/// Makes what each recipe asks for, one after another, and answers how many words are then used.
/// No used word changes, and every content that was made still has its units when all are made.
/// Answers nothing, and changes nothing, if `made` does not have just one place for each recipe.
pub fn make_each<R: Copy, C: Make<R>>(
    recipes: &[R],
    words: &mut [u64],
    used: u32,
    made: &mut [Option<C>],
) -> Option<u32>
    ensures answer { is_some result ≡ (length made.old == length recipes.now) }
    ensures leaves { elim result [ Some n ↦ Sequence C.Content C.Make.asks recipes.now words.old used words.new n made.new | None ↦ (words.new ≡ words.old) × (made.new ≡ made.old) ] }
{
    if made.len() != recipes.len() {
        return None;
    }
    Some(make_all(recipes, words, used, made))
}

#[cfg(test)]
mod tests {
    use super::make_each;
    use crate::echo::Echo;
    use content::content::Content;
    use content::mix::Mix;
    use content::text_run::TextRun;
    use making::make::Make;

    type Kind = Mix<TextRun, Echo>;

    // The unit at `offset` of what was made, nothing if nothing was.
    fn unit(made: &Option<Kind>, words: &[u64], offset: u32) -> Option<u64> {
        made.and_then(|c| c.unit(words, offset))
    }

    #[test]
    fn a_mix_of_a_known_and_a_strange_kind(rt: HostRuntime) {
        let text: &[u16] = &[1, 2, 3, 4, 5];
        let recipes = [
            Mix::One(text),
            Mix::Other((7, 0)),
            Mix::Other((7, 65_536)),
            Mix::One(text),
        ];
        let mut words = [9; 4];
        let mut made: [Option<Kind>; 4] = [None; 4];
        assert_eq!(rt; make_each(&recipes, &mut words, 1, &mut made[0..3]), None);
        assert_eq!(rt; make_each(&recipes, &mut words, 1, &mut made), Some(3));
        assert_eq!(rt; words, [9, 0x0004_0003_0002_0001, 5, 9]);
        assert_eq!(rt; unit(&made[0], &words, 4), Some(5));
        assert!(rt; made[1].is_none());
        assert_eq!(rt; unit(&made[2], &words, 65_535), Some(7));
        assert_eq!(rt; unit(&made[2], &words, 65_536), None);
        assert!(rt; made[3].is_none());
    }
}
