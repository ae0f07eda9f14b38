//! The registers of lists and clients at their limits, and the link set of a new block.
#![tactic(auto)]

#[cfg(test)]
mod tests {
    use registry::clients::{ClientRefusal, Clients};
    use registry::links::Links;
    use registry::names::{Names, OpenRefusal};

    #[test]
    fn sixteen_lists(rt: HostRuntime) {
        let mut names = Names::new();
        for (number, name) in (0u8..16).zip(b"abcdefghijklmnop".chunks(1)) {
            assert_eq!(rt; names.open(name), Ok(number));
        }
        // a known name is found with 16 open, a new one refused, and a bad one refused first
        assert_eq!(rt; names.open(b"c"), Ok(2));
        assert_eq!(rt; names.open(b"q").map_err(OpenRefusal::number), Err(2));
        assert_eq!(rt; names.open(b"").map_err(OpenRefusal::number), Err(1));
        assert_eq!(rt; names.open(b"a\x7f").map_err(OpenRefusal::number), Err(1));
        assert_eq!(rt; names.number_of(b"p"), Some(15));
        assert_eq!(rt; names.number_of(b"q"), None);
        assert_eq!(rt; names.number_of(b""), None);
    }

    #[test]
    fn names_of_32_bytes(rt: HostRuntime) {
        let mut names = Names::new();
        assert_eq!(rt; names.open(b"0123456789abcdef0123456789abcdef"), Ok(0));
        assert_eq!(rt; names.open(b"0123456789abcdef0123456789abcde"), Ok(1));
        assert_eq!(rt;
            names
                .open(b"0123456789abcdef0123456789abcdef0")
                .map_err(OpenRefusal::number),
            Err(1)
        );
        assert_eq!(rt;
            names.number_of(b"0123456789abcdef0123456789abcdef"),
            Some(0)
        );
    }

    #[test]
    fn sixteen_clients(rt: HostRuntime) {
        let mut clients = Clients::new();
        assert_eq!(rt; clients.admit(0x1F_FFFF_FFFF_FFFF), Ok(()));
        assert_eq!(rt;
            clients
                .admit(0x20_0000_0000_0000)
                .map_err(ClientRefusal::number),
            Err(4)
        );
        for client in 0..16 {
            assert_eq!(rt; clients.credit(client, 5), Some(0));
        }
        assert_eq!(rt; clients.credit(3, 2), Some(5));
        assert_eq!(rt; clients.count_of(3), 7);
        assert_eq!(rt; clients.count_of(16), 0);
        assert_eq!(rt; clients.admit(15), Ok(()));
        assert_eq!(rt; clients.admit(16).map_err(ClientRefusal::number), Err(5));
        assert_eq!(rt;
            clients
                .admit(0x20_0000_0000_0000)
                .map_err(ClientRefusal::number),
            Err(4)
        );
        assert_eq!(rt; clients.credit(16, 1), None);
        // clocks have 32 bits
        assert_eq!(rt; clients.credit(3, u32::MAX - 7), Some(7));
        assert_eq!(rt; clients.credit(3, 1), None);
        assert_eq!(rt; clients.count_of(3), u32::MAX);
    }

    #[test]
    fn no_link_joins(rt: HostRuntime) {
        let links = Links::new();
        assert_eq!(rt; links.join(0, None, None, 0, 0), 0);
        assert_eq!(rt; links.join(0, None, None, 5, 6), 4);
    }
}
