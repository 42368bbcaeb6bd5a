// Flow tables on colliding keys and full rows, and beside the standard library's map.
#![tactic(auto)]

#[cfg(test)]
mod tests {
    use flow::key::Key;
    use flow::row::{Row, Unplaced};
    use flow::table::FlowTable;
    use packet::kinds::{Address, Conversation, Station};
    use std::collections::BTreeMap;
    use std::test::Fail;

    fn station(first: u8, last: u8) -> Station {
        Station {
            source: [first, 0, 0, 0, 0, last],
        }
    }

    fn row(key: Station) -> Row<Station, u32> {
        Row {
            key,
            meter: 7,
            next: 0,
        }
    }

    // 1, 65 and 64 ^ 1 with another first byte have the low six bits 1: one chain.
    #[test]
    fn one_chain(rt: HostRuntime) -> Result<(), Fail> {
        let mut rows = [row(station(0, 0)); 4];
        let (a, b, c) = (station(0, 1), station(0, 65), station(64, 1));
        assert_eq!(rt; a.chain(), 1);
        assert_eq!(rt; b.chain(), 1);
        assert_eq!(rt; c.chain(), 1);
        let mut table = FlowTable::new(&mut rows)?;
        assert_eq!(rt; table.get(&a), None);
        assert_eq!(rt; table.put(a, 10), Ok(()));
        assert_eq!(rt; table.put(b, 20), Ok(()));
        assert_eq!(rt; table.put(c, 30), Ok(()));
        assert_eq!(rt; table.put(b, 21), Ok(()));
        assert_eq!(rt; table.get(&a), Some(10));
        assert_eq!(rt; table.get(&b), Some(21));
        assert_eq!(rt; table.get(&c), Some(30));
        assert_eq!(rt; table.get(&station(1, 0)), None);
        Ok(())
    }

    #[test]
    fn full_rows(rt: HostRuntime) -> Result<(), Fail> {
        let mut rows = [row(station(0, 0)); 2];
        let mut table = FlowTable::new(&mut rows)?;
        assert_eq!(rt; table.insert(station(0, 1), 1).is_ok(), true);
        assert_eq!(rt; table.insert(station(0, 1), 2), Err(Unplaced::Held));
        assert_eq!(rt; table.insert(station(0, 2), 3).is_ok(), true);
        assert_eq!(rt; table.insert(station(0, 3), 4), Err(Unplaced::Full));
        assert_eq!(rt; table.put(station(0, 3), 4), Err(Unplaced::Full));
        assert_eq!(rt; table.put(station(0, 2), 5), Ok(()));
        assert_eq!(rt; table.set(2, 9), None);
        assert_eq!(rt; table.meter(2), None);
        assert_eq!(rt; table.get(&station(0, 1)), Some(1));
        assert_eq!(rt; table.get(&station(0, 2)), Some(5));
        Ok(())
    }

    // 192.168.0.1 to 10.0.0.255, protocol 17: 192 ^ 168 ^ 1 = 105, 10 ^ 255 = 245, 105 ^ 245 ^ 17 = 141, its low six bits 13.
    #[test]
    fn chain_of_a_conversation(rt: HostRuntime) {
        let key = Conversation {
            source: Address(0xc0a8_0001),
            destination: Address(0x0a00_00ff),
            protocol: 17,
        };
        assert_eq!(rt; key.chain(), 13);
    }

    #[test]
    fn no_rows(rt: HostRuntime) -> Result<(), Fail> {
        let mut none: [Row<Station, u32>; 0] = [];
        match FlowTable::new(&mut none) {
            Ok(_) => Err(Fail::new("made")),
            Err(refusal) => {
                assert_eq!(rt; refusal.number(), 8);
                Ok(())
            }
        }
    }

    // A made sequence of calls over 200 keys and 128 rows, beside a map that is kept to 128 keys.
    #[test]
    fn beside_a_map(rt: HostRuntime) -> Result<(), Fail> {
        let mut rows = [row(station(0, 0)); 128];
        let mut table = FlowTable::new(&mut rows)?;
        let mut map = BTreeMap::new(rt.alloc());
        let mut seed: u32 = 1;
        for _ in 0..5_000 {
            seed = seed.wrapping_mul(1_664_525).wrapping_add(1_013_904_223);
            let n = (seed / 0x1_0000 % 200) as u8;
            let key = station(n % 3, n);
            assert_eq!(rt; table.get(&key), map.get(&n).copied());
            if seed / 0x100_0000 % 2 == 0 {
                let room = map.contains_key(&n) || map.len() < 128;
                assert_eq!(rt; table.put(key, seed).is_ok(), room);
                if room {
                    map.insert(n, seed)?;
                }
            }
        }
        assert_eq!(rt; map.len(), 128);
        Ok(())
    }
}
