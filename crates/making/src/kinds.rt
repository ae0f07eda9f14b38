// The makings of the supplied kinds, and of a mix by either of its kinds.
ghost use Rattle.std.specs.Prelude.{true, false, [], ◌∷◌, replicate};
ghost use Rattle.content.specs.Either.{either};
ghost use Rattle.making.specs.Packed.{packed, surrogates};

use crate::make::{Made, Make};
use crate::packing::{has_surrogate, pack};
use crate::refusal::{Refusal, judge};
use crate::word_table::append;
use content::clip_run::ClipRun;
use content::content::Content;
use content::gap::Gap;
use content::mark::Mark;
use content::mix::Mix;
use content::text_run::TextRun;

/// A mark from its unit.
impl Make<u64> for Mark {
    ghost asks = { λ r. record { counts = false; units = r ∷ []; faulty = false; spent = λ _. [] } };

    fn make(recipe: u64, words: &mut [u64], used: u32) -> Result<Made<Mark>, Refusal> {
        judge(1, false, 0, words.len(), used)?;
        Ok(Made {
            content: Mark { unit: recipe },
            used,
        })
    }
}

/// A gap from its length.
impl Make<u32> for Gap {
    ghost asks = { λ r. record { counts = false; units = replicate r 0; faulty = false; spent = λ _. [] } };

    fn make(recipe: u32, words: &mut [u64], used: u32) -> Result<Made<Gap>, Refusal> {
        judge(recipe as usize, false, 0, words.len(), used)?;
        Ok(Made {
            content: Gap { len: recipe },
            used,
        })
    }
}

/// A clip run from its units.
impl<'a> Make<&'a [u64]> for ClipRun {
    ghost asks = { λ r. record { counts = true; units = r.now; faulty = false; spent = λ _. r.now } };

    fn make(recipe: &'a [u64], words: &mut [u64], used: u32) -> Result<Made<ClipRun>, Refusal> {
        let n = recipe.len();
        judge(n, false, n, words.len(), used)?;
        append(recipe, words, used);
        let to = used + n as u32;
        Ok(Made {
            content: ClipRun { from: used, to },
            used: to,
        })
    }
}

/// A text run from its units.
// Not one making with the clip runs': the test of the units and how they are packed are of this kind alone.
impl<'a> Make<&'a [u16]> for TextRun {
    ghost asks = { λ r. record { counts = true; units = r.now; faulty = surrogates r.now; spent = λ _. packed r.now } };

    fn make(recipe: &'a [u16], words: &mut [u64], used: u32) -> Result<Made<TextRun>, Refusal> {
        let n = recipe.len();
        let m = n.div_ceil(4);
        judge(n, has_surrogate(recipe), m, words.len(), used)?;
        let at = used as usize;
        pack(recipe, &mut words[at..at + m]);
        let from = 4 * used;
        Ok(Made {
            content: TextRun {
                from,
                to: from + n as u32,
            },
            used: used + m as u32,
        })
    }
}

/// A mix from a recipe of one of its kinds.
impl<R, S, A: Make<R>, B: Make<S>> Make<Mix<R, S>> for Mix<A, B> {
    ghost asks = { either A.Make.asks B.Make.asks };

    fn make(recipe: Mix<R, S>, words: &mut [u64], used: u32) -> Result<Made<Mix<A, B>>, Refusal> {
        // Two arms: the kinds are made by functions of two types.
        match recipe {
            Mix::One(r) => {
                let Made { content, used } = A::make(r, words, used)?;
                Ok(Made {
                    content: Mix::One(content),
                    used,
                })
            }
            Mix::Other(s) => {
                let Made { content, used } = B::make(s, words, used)?;
                Ok(Made {
                    content: Mix::Other(content),
                    used,
                })
            }
        }
    }
}
