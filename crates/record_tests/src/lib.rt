//! Examples of numbers and records, with values from the DWARF standard and from the format's description.
#![tactic(auto)]

#[cfg(test)]
mod tests {
    use leb128::fault::NumberFault;
    use leb128::field::NumberField;
    use leb128::reader::read_number;
    use leb128::writer::{number_len, write_number};
    use record::fault::{Layer, RecordFault};
    use record::name::is_name;
    use record::reader::decode_weak_link;
    use record_writer::fault::WriteFault;
    use record_writer::round_trip::write_and_read;
    use record_writer::writer::encode_weak_link;
    use source::id::Id;
    use source::sticky_index::{Assoc, IndexScope, StickyIndex};
    use source::weak::LinkSource;
    use std::test::Fail;

    // The refusal's number, and the offset where the number begins.
    fn number_told(fault: NumberFault) -> (u8, usize) {
        (fault.cause.number(), fault.offset)
    }

    // The table of unsigned examples of the standard: the number, its first byte, its second byte, its length.
    #[test]
    fn standard_table(rt: HostRuntime) {
        let table: [(u64, u8, u8, usize); 6] = [
            (2, 2, 0, 1),
            (127, 127, 0, 1),
            (128, 0x80, 1, 2),
            (129, 1 + 0x80, 1, 2),
            (130, 2 + 0x80, 1, 2),
            (12857, 57 + 0x80, 100, 2),
        ];
        for (value, first, second, len) in table {
            let mut buf = [0u8; 3];
            assert_eq!(rt; number_len(value), len);
            assert!(rt; write_number(&mut buf, 0, value).is_ok());
            assert_eq!(rt; buf, [first, second, 0]);
            assert_eq!(rt;
                read_number(&buf, 0, NumberField::Clock).map_err(number_told),
                Ok((value, len))
            );
        }
    }

    #[test]
    fn number_limits(rt: HostRuntime) {
        let table: [(&[u8], usize, NumberField, Result<(u64, usize), (u8, usize)>); 9] = [
            (
                b"\xff\xff\xff\xff\xff\xff\xff\x0f",
                0,
                NumberField::Client,
                Ok((0x1F_FFFF_FFFF_FFFF, 8)),
            ),
            (
                b"\x80\x80\x80\x80\x80\x80\x80\x10",
                0,
                NumberField::Client,
                Err((18, 0)),
            ),
            (
                b"\xff\xff\xff\xff\x0f",
                0,
                NumberField::Clock,
                Ok((0xFFFF_FFFF, 5)),
            ),
            (b"\x80\x80\x80\x80\x10", 0, NumberField::Clock, Err((18, 0))),
            // a longer form, up to the last byte allowed and past it
            (b"\x87\x80\x80\x80\x00", 0, NumberField::Count, Ok((7, 5))),
            (
                b"\x87\x80\x80\x80\x80\x00",
                0,
                NumberField::Count,
                Err((18, 0)),
            ),
            // the bytes end inside a number, before it, and before the place
            (b"\x01\x87", 1, NumberField::Count, Err((17, 1))),
            (b"\x01", 1, NumberField::Count, Err((17, 1))),
            (b"\x01", 2, NumberField::Count, Err((17, 2))),
        ];
        for (bytes, at, field, answer) in table {
            assert_eq!(rt; read_number(bytes, at, field).map_err(number_told), answer);
        }
        // a number that is there is read
        assert_ne!(rt;
            read_number(b"\x01", 0, NumberField::Count).map_err(number_told),
            Ok((0, 99))
        );
    }

    fn anchor(client: u64, clock: u32, assoc: Assoc) -> StickyIndex<'static> {
        let scope = IndexScope::Relative(Id { client, clock });
        StickyIndex { scope, assoc }
    }

    fn root<'a>(name: &'a [u8], assoc: Assoc) -> StickyIndex<'a> {
        StickyIndex {
            scope: IndexScope::Root(name),
            assoc,
        }
    }

    // How many bytes were written, or the refusal's number.
    fn write(source: &LinkSource<'_>, buf: &mut [u8], at: usize) -> Result<usize, u8> {
        encode_weak_link(source, buf, at).map_err(WriteFault::number)
    }

    #[test]
    fn written_in_place(rt: HostRuntime) -> Result<(), Fail> {
        let mut buf = [9u8; 9];
        let source = LinkSource::new(
            anchor(1, 300, Assoc::After),
            anchor(2, 7, Assoc::Before),
        ).ok_or("no source")?;
        assert_eq!(rt; write(&source, &mut buf, 1), Ok(7));
        assert_eq!(rt; buf, [9, 7, 3, 1, 0xAC, 2, 2, 7, 9]);
        assert_eq!(rt; write(&source, &mut buf, 3), Err(20));
        assert_eq!(rt; write(&source, &mut buf, 10), Err(20));
        assert_eq!(rt; buf, [9, 7, 3, 1, 0xAC, 2, 2, 7, 9]);
        assert_eq!(rt; write(&source, &mut buf, 2), Ok(7));
        assert_eq!(rt; buf, [9, 7, 7, 3, 1, 0xAC, 2, 2, 7]);
        Ok(())
    }

    #[test]
    fn written_single_and_open(rt: HostRuntime) -> Result<(), Fail> {
        let mut buf = [9u8; 11];
        let source = LinkSource::new(anchor(1, 5, Assoc::Before), anchor(1, 5, Assoc::After)).ok_or(
            "no source",
        )?;
        assert_eq!(rt; write(&source, &mut buf, 0), Ok(4));
        assert_eq!(rt; buf, [7, 4, 1, 5, 9, 9, 9, 9, 9, 9, 9]);
        let day = LinkSource::new(root(b"day", Assoc::Before), root(b"day", Assoc::After)).ok_or(
            "no source",
        )?;
        assert_eq!(rt; write(&day, &mut buf, 0), Ok(10));
        assert_eq!(rt; buf, [7, 0x3D, 3, 0x64, 0x61, 0x79, 3, 0x64, 0x61, 0x79, 9]);
        Ok(())
    }

    // A name is tested before a client, a client before the room, and no byte changes.
    #[test]
    fn refused_in_order(rt: HostRuntime) -> Result<(), Fail> {
        let mut buf = [9u8; 2];
        let large = 0x20_0000_0000_0000;
        let both = LinkSource::new(root(b"", Assoc::Before), anchor(large, 0, Assoc::After)).ok_or(
            "no source",
        )?;
        assert_eq!(rt; write(&both, &mut buf, 0), Err(1));
        let client = LinkSource::new(
            root(b"a", Assoc::Before),
            anchor(large, 0, Assoc::After),
        ).ok_or("no source")?;
        assert_eq!(rt; write(&client, &mut buf, 0), Err(4));
        let room = LinkSource::new(
            root(b"a", Assoc::Before),
            anchor(large - 1, 0, Assoc::After),
        )
        .ok_or("no source")?;
        assert_eq!(rt; write(&room, &mut buf, 0), Err(20));
        assert_eq!(rt; buf, [9, 9]);
        Ok(())
    }

    #[test]
    fn open_one_way(rt: HostRuntime) {
        let list = StickyIndex {
            scope: IndexScope::Nested(Id {
                client: 1,
                clock: 2,
            }),
            assoc: Assoc::After,
        };
        assert!(rt; LinkSource::new(root(b"day", Assoc::Before), list).is_none());
        assert!(rt; LinkSource::new(list, root(b"day", Assoc::Before)).is_none());
        assert!(rt; LinkSource::new(list, list).is_some());
    }

    #[test]
    fn names(rt: HostRuntime) {
        assert!(rt; !is_name(b""));
        assert!(rt; is_name(b" ~"));
        assert!(rt; !is_name(b"\x1f"));
        assert!(rt; !is_name(b"a\x7f"));
        assert!(rt; is_name(b"0123456789abcdef0123456789abcdef"));
        assert!(rt; !is_name(b"0123456789abcdef0123456789abcdef0"));
    }

    // The refusal's number, its offset, and whether a number tells it.
    fn record_told(fault: RecordFault) -> (u8, usize, bool) {
        (
            fault.number(),
            fault.offset(),
            matches!(fault.layer(), Layer::Number),
        )
    }

    #[test]
    fn faults(rt: HostRuntime) {
        let table: [(&[u8], Result<usize, (u8, usize, bool)>); 13] = [
            (b"", Err((17, 0, false))),
            (b"\x08", Err((21, 0, false))),
            (b"\x07", Err((17, 1, false))),
            (b"\x07\x04", Err((17, 2, true))),
            (b"\x07\x04\x01", Err((17, 3, true))),
            (b"\x07\x04\xff\xff\xff\xff\xff\xff\xff\x0f\x01", Ok(11)),
            (
                b"\x07\x04\x80\x80\x80\x80\x80\x80\x80\x10",
                Err((18, 2, true)),
            ),
            (b"\x07\x29\x00", Err((1, 2, false))),
            (b"\x07\x29\x21", Err((1, 2, false))),
            (b"\x07\x29\xa1", Err((17, 2, true))),
            (b"\x07\x29\x02a", Err((17, 2, false))),
            (b"\x07\x29\x02a\x7f", Err((1, 2, false))),
            (b"\x07\x28\x01a\x55", Ok(4)),
        ];
        for (bytes, answer) in table {
            assert_eq!(rt;
                decode_weak_link(bytes)
                    .map(|(_, len)| len)
                    .map_err(record_told),
                answer
            );
        }
    }

    // What a partner sent, decoded and written again, is the bytes that came.
    #[test]
    fn partner_records(rt: HostRuntime) -> Result<(), Fail> {
        let came: [&[u8]; 4] = [
            b"\x07\x04\x01\x05",
            b"\x07\x3D\x03day\x03day",
            b"\x07\x03\x01\xAC\x02\x02\x07",
            b"\x07\x1D\x01\x02\x03\x04",
        ];
        for bytes in came {
            let mut buf = [0u8; 16];
            let (source, n) = decode_weak_link(bytes).ok().ok_or("not read")?;
            assert_eq!(rt; n, bytes.len());
            assert_eq!(rt; write(&source, &mut buf, 0), Ok(n));
            assert!(rt; n <= 16);
            assert_eq!(rt; &buf[..n], bytes);
            assert_eq!(rt; write_and_read(&source, &mut buf, 3), Ok((source, n)));
        }
        Ok(())
    }
}
