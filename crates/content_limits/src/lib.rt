//! The makings and the kinds at their limits, case by case.
#![tactic(auto)]

#[cfg(test)]
mod tests {
    use content::clip_run::ClipRun;
    use content::content::Content;
    use content::cutting::cut_into_pieces;
    use content::gap::Gap;
    use content::mark::Mark;
    use content::mix::Mix;
    use content::text_run::TextRun;
    use making::make::Make;
    use std::test::Fail;

    // Every supplied kind.
    type Any = Mix<ClipRun, Mix<TextRun, Mix<Mark, Gap>>>;

    // The used words after making a content of the first `n` units in a table of `size` words, or the refusal's number.
    fn used_after<'a, T, C: Make<&'a [T]>>(
        units: &'a [T],
        n: usize,
        size: usize,
        used: u32,
    ) -> Result<u32, u8> {
        let mut words = [0; 65_540];
        if n > units.len() || size > words.len() {
            // No refusal's number: a case would ask for more than there is.
            return Err(0);
        }
        C::make(&units[..n], &mut words[..size], used)
            .map(|made| made.used)
            .map_err(|refusal| refusal.number())
    }

    // The length of a gap that was made over no words, and the used words, or the refusal's number.
    fn gap(n: u32, used: u32) -> Result<(u32, u32), u8> {
        Gap::make(n, &mut [], used)
            .map(|made| (made.content.len(), made.used))
            .map_err(|refusal| refusal.number())
    }

    #[test]
    fn text_lengths(rt: HostRuntime) {
        let cases = [
            (0, 16_384, 0, Err(6)),
            (1, 16_384, 0, Ok(1)),
            (3, 16_384, 0, Ok(1)),
            (4, 16_384, 0, Ok(1)),
            (5, 16_384, 0, Ok(2)),
            (65_535, 16_384, 0, Ok(16_384)),
            (65_536, 16_384, 0, Ok(16_384)),
            (65_537, 16_384, 0, Err(6)),
            (65_536, 16_383, 0, Err(8)),
            (4, 0, 0, Err(8)),
            (4, 1, 0, Ok(1)),
            (5, 1, 0, Err(8)),
            (4, 65_540, 65_535, Ok(65_536)),
            (5, 65_540, 65_535, Err(8)),
            (1, 65_540, 65_536, Err(8)),
            (1, 5, 10, Err(8)),
        ];
        let units = [65; 65_540];
        for (n, size, used, want) in cases {
            assert_eq!(rt; used_after::<u16, TextRun>(&units, n, size, used), want);
        }
    }

    #[test]
    fn text_units(rt: HostRuntime) {
        let cases = [
            (3, 0xD7FF, 1, Ok(1)),
            (3, 0xD800, 1, Err(9)),
            (3, 0xDFFF, 1, Err(9)),
            (3, 0xE000, 1, Ok(1)),
            (65_537, 0xD800, 0, Err(6)),
            (0, 0xD800, 0, Err(6)),
            (3, 0xD800, 0, Err(9)),
            (3, 0xD7FF, 0, Err(8)),
        ];
        for (n, u, size, want) in cases {
            assert_eq!(rt; used_after::<u16, TextRun>(&[u; 65_540], n, size, 0), want);
        }
    }

    #[test]
    fn clip_lengths(rt: HostRuntime) {
        let cases = [
            (0, 65_540, 0, Err(6)),
            (1, 65_540, 0, Ok(1)),
            (3, 65_540, 0, Ok(3)),
            (5, 65_540, 4, Ok(9)),
            (65_535, 65_540, 0, Ok(65_535)),
            (65_536, 65_540, 0, Ok(65_536)),
            (65_537, 65_540, 0, Err(6)),
            (65_536, 65_535, 0, Err(8)),
            (65_536, 65_540, 1, Err(8)),
            (5, 4, 0, Err(8)),
            (5, 5, 0, Ok(5)),
            (1, 5, 10, Err(8)),
        ];
        let units = [7; 65_540];
        for (n, size, used, want) in cases {
            assert_eq!(rt; used_after::<u64, ClipRun>(&units, n, size, used), want);
        }
    }

    #[test]
    fn gap_lengths(rt: HostRuntime) {
        let cases = [
            (0, 0, Err(6)),
            (1, 0, Ok((1, 0))),
            (65_535, 3, Ok((65_535, 3))),
            (65_536, 70_000, Ok((65_536, 70_000))),
            (65_537, 0, Err(6)),
        ];
        for (n, used, want) in cases {
            assert_eq!(rt; gap(n, used), want);
        }
    }

    // The words after five units, four to a word, with the spare bits 0 and the other words as they were.
    #[test]
    fn packed(rt: HostRuntime) -> Result<(), Fail> {
        let mut words = [u64::MAX; 4];
        let m = TextRun::make(&[0x1111, 0x2222, 0x3333, 0x4444, 0x5555], &mut words, 1)?;
        assert_eq!(rt; m.used, 3);
        assert_eq!(rt; words, [u64::MAX, 0x4444_3333_2222_1111, 0x5555, u64::MAX]);
        Ok(())
    }

    // A refused making changes no word.
    #[test]
    fn refused(rt: HostRuntime) {
        let mut words = [u64::MAX; 2];
        assert!(rt; TextRun::make(&[1, 2, 3, 0xD800], &mut words, 0).is_err());
        assert!(rt; TextRun::make(&[1, 2, 3, 4, 5], &mut words, 1).is_err());
        assert!(rt; ClipRun::make(&[1, 2], &mut words, 1).is_err());
        assert_eq!(rt; words, [u64::MAX, u64::MAX]);
    }

    // Numbers that are no surrogates, one after another.
    fn count_up(units: &mut [u16]) {
        for (i, unit) in units.iter_mut().enumerate() {
            *unit = (i % 0xD800) as u16;
        }
    }

    // Every unit of the longest text is read back, and none past it.
    #[test]
    fn longest(rt: HostRuntime) -> Result<(), Fail> {
        let mut units = [0; 65_536];
        count_up(&mut units);
        let mut words = [0; 16_384];
        let m = TextRun::make(&units, &mut words, 0)?;
        // By its place: a content is no slice.
        for i in 0..65_536u32 {
            assert_eq!(rt; m.content.unit(&words, i), Some(u64::from(i % 0xD800)));
        }
        assert_eq!(rt; m.content.unit(&words, 65_536), None);
        Ok(())
    }

    // The unit at `i` of the right piece of the units 1 to 9 after one word, cut at `k`, over the first `n` words.
    fn right_unit(k: u32, n: usize, i: u32) -> Option<u64> {
        let mut words = [0; 4];
        let m = TextRun::make(&[1, 2, 3, 4, 5, 6, 7, 8, 9], &mut words, 1).ok()?;
        if k == 0 || k >= m.content.len() || n > 4 {
            return None;
        }
        let (_, right) = m.content.cut(k);
        right.unit(&words[..n], i)
    }

    #[test]
    fn text_inside_a_word(rt: HostRuntime) {
        let cases = [
            (1, 4, 0, Some(2)),
            (3, 4, 0, Some(4)),
            (3, 4, 1, Some(5)),
            (4, 4, 0, Some(5)),
            (5, 4, 3, Some(9)),
            (5, 4, 4, None),
            (8, 4, 0, Some(9)),
            (8, 3, 0, None),
        ];
        for (k, n, i, want) in cases {
            assert_eq!(rt; right_unit(k, n, i), want);
        }
    }

    #[test]
    fn fitting(rt: HostRuntime) {
        let clips = [(0, 5, 4, false), (0, 5, 5, true), (5, 5, 0, true)];
        for (from, to, used, want) in clips {
            assert_eq!(rt; ClipRun { from, to }.fits(used), want);
        }
        let texts = [
            (0, 4, 0, false),
            (0, 4, 1, true),
            (0, 5, 1, false),
            (0, 5, 2, true),
            (3, 4, 1, true),
            (9, 9, 0, true),
        ];
        for (from, to, used, want) in texts {
            assert_eq!(rt; TextRun { from, to }.fits(used), want);
        }
    }

    // The lengths of the pieces of a gap of five units that is cut at the offsets.
    fn gap_pieces(offsets: &[u32], room: usize) -> Option<[u32; 3]> {
        let mut pieces = [Gap { len: 9 }; 3];
        if room > 3 || !cut_into_pieces(&Gap { len: 5 }, offsets, &mut pieces[..room]) {
            return None;
        }
        Some(pieces.map(|piece| piece.len))
    }

    #[test]
    fn pieces(rt: HostRuntime) {
        assert_eq!(rt; gap_pieces(&[], 1), Some([5, 9, 9]));
        assert_eq!(rt; gap_pieces(&[1], 2), Some([1, 4, 9]));
        assert_eq!(rt; gap_pieces(&[1, 3], 3), Some([1, 2, 2]));
        assert_eq!(rt; gap_pieces(&[1, 3], 2), None);
        assert_eq!(rt; gap_pieces(&[1], 3), None);
        assert_eq!(rt; gap_pieces(&[0], 2), None);
        assert_eq!(rt; gap_pieces(&[5], 2), None);
        assert_eq!(rt; gap_pieces(&[3, 3], 3), None);
        assert_eq!(rt; gap_pieces(&[3, 1], 3), None);
    }

    // What a content of any kind tells of itself: its length, whether it is countable, and its second unit.
    fn told(c: &Any, words: &[u64]) -> (u32, bool, Option<u64>) {
        (c.len(), c.countable(), c.unit(words, 1))
    }

    #[test]
    fn nested_mixes(rt: HostRuntime) -> Result<(), Fail> {
        let mut words = [0; 4];
        let clips: &[u64] = &[10, 11];
        let text: &[u16] = &[20, 21, 22];
        let a = Any::make(Mix::One(clips), &mut words, 0)?;
        let b = Any::make(Mix::Other(Mix::One(text)), &mut words, a.used)?;
        let c = Any::make(Mix::Other(Mix::Other(Mix::One(30))), &mut words, b.used)?;
        let d = Any::make(Mix::Other(Mix::Other(Mix::Other(4))), &mut words, c.used)?;
        assert_eq!(rt; d.used, 3);
        assert_eq!(rt; told(&a.content, &words), (2, true, Some(11)));
        assert_eq!(rt; told(&b.content, &words), (3, true, Some(21)));
        assert_eq!(rt; told(&c.content, &words), (1, false, None));
        assert_eq!(rt; told(&d.content, &words), (4, false, Some(0)));
        Ok(())
    }
}
