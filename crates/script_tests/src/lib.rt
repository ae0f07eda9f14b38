//! What prints a script's answers, once each where there is memory enough.
#![tactic(auto)]

#[cfg(test)]
mod tests {
    use notation::text::push_shown;
    use std::test::Fail;
    use transcript::script::transcribe;

    #[test]
    fn shown(rt: HostRuntime) -> Result<(), Fail> {
        let mut text = Vec::new(rt.alloc());
        push_shown(&mut text, &"list ")?;
        push_shown(&mut text, &7u8)?;
        assert_eq!(rt; text.as_slice(), b"list 7".as_slice());
        Ok(())
    }

    #[test]
    fn transcribed(rt: HostRuntime) -> Result<(), Fail> {
        let mut script: &[u8] = b"# a partner's record\ndecode 07040105\n\nwrite -1:5 +1:5";
        let mut text = Vec::new(rt.alloc());
        transcribe(rt.alloc(), &mut script, &mut text)?;
        assert_eq!(rt;
            text.as_slice(),
            b"source -1:5 +1:5 bytes 4\nrecord 07040105\n".as_slice()
        );
        Ok(())
    }
}
