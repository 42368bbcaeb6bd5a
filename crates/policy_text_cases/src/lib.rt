// Policies as text: the example and the mistakes of docs/POLICY.md, and every word at its bounds.
#![tactic(auto)]

#[cfg(test)]
mod tests {
    use meter::measures::Mode;
    use meter::metering::Meter;
    use packet::kinds::{Address, Class, Conversation, Key, Station};
    use policy::rules::Selector;
    use policy_text::reader::{PolicyFault, read_policy};
    use std::alloc::Global;
    use std::process::Abort;
    use std::test::Fail;

    const EXAMPLE: &str = "node 1 0 tb 1250000 200000
node 2 1 tr 250000 50000 500000 100000
node 3 1 sr 125000 20000 40000
node 4 2 vs 1000 20000
ip 10.1.0.0/16 0.0.0.0/0 6 2 1 aware sr 50000 10000 20000
ip 10.1.0.0/16 192.0.2.0/24 any 4 2 blind tb 100000 30000
ip 10.2.3.4/32 0.0.0.0/0 17 3 3 blind lb 500 5000
ip 0.0.0.0/0 0.0.0.0/0 any 0 4 blind tb 10000 3000
mac 0200000000a1 3 tb 20000 3000
mac any 0 lb 10000 0
";

    // The line, the word and the number of a refusal, where there is one.
    fn refused(heap: Global, text: &[u8]) -> Option<(u64, u8, u8)> {
        let Err(PolicyFault::At(fault)) = read_policy(heap, text) else {
            return None;
        };
        Some((fault.line, fault.word, fault.cause.number()))
    }

    // How many nodes and rules a text has, where it is taken.
    fn counts(heap: Global, text: &[u8]) -> Option<(u8, usize)> {
        read_policy(heap, text)
            .ok()
            .map(|policy| (policy.tree.count(), policy.rules.len()))
    }

    // What `read` makes of the text with one line more.
    fn behind<T, F: FnOnce(Global, &[u8]) -> T>(
        heap: Global,
        text: &str,
        line: &str,
        read: F,
    ) -> Result<T, Fail>
        requires { F.IsAlwaysCallable read }
    {
        let whole = format!(in heap; "{text}{line}\n")?;
        Ok(read(heap, whole.as_bytes()))
    }

    // Each text is refused at its line and word, with its number.
    fn texts_refused(rt: &impl Abort, heap: Global, cases: &[(&str, u64, u8, u8)]) {
        for (text, line, word, number) in cases {
            let place = Some((*line, *word, *number));
            assert_eq!(rt; refused(heap, text.as_bytes()), place, "{}", *text);
        }
    }

    // Each line is refused at its word, with its number, behind one node.
    fn lines_refused(rt: &impl Abort, heap: Global, cases: &[(&str, u8, u8)]) -> Result<(), Fail> {
        for (line, word, number) in cases {
            let place = Some((2, *word, *number));
            let got = behind(heap, "node 1 0 tb 1000 1400\n", line, refused)?;
            assert_eq!(rt; got, place, "{}", *line);
        }
        Ok(())
    }

    // Each line is taken, alone.
    fn lines_taken(rt: &impl Abort, heap: Global, lines: &[&str]) -> Result<(), Fail> {
        for line in lines {
            assert!(rt; behind(heap, "", line, counts)?.is_some(), "{}", *line);
        }
        Ok(())
    }

    #[test]
    fn example_nodes(rt: HostRuntime) -> Result<(), Fail> {
        let policy = read_policy(rt.alloc(), EXAMPLE.as_bytes())?;
        assert!(rt; policy.tree.parents() == [0, 1, 1, 2].as_slice());
        assert_eq!(rt; policy.tree.depth(3), Some(2));
        assert_eq!(rt; policy.tree.depth(4), Some(3));
        assert_eq!(rt; policy.rules.len(), 6);
        let [_, second, ..] = policy.meters.as_slice() else {
            return Err(Fail::new("no second node"));
        };
        // 500,000 bytes a second up to 100,000 bytes, at a million grains a byte
        let terms = second.terms();
        assert_eq!(rt; terms.all.rate, 500_000);
        assert_eq!(rt; terms.all.depth.0, 100_000_000_000);
        Ok(())
    }

    #[test]
    fn example_rule(rt: HostRuntime) -> Result<(), Fail> {
        let policy = read_policy(rt.alloc(), EXAMPLE.as_bytes())?;
        let [_, second, ..] = policy.rules.as_slice() else {
            return Err(Fail::new("no second rule"));
        };
        let Selector::Ip(rule) = second.selector else {
            return Err(Fail::new("for stations"));
        };
        assert_eq!(rt; second.parent, 4);
        assert!(rt; rule.source.holds(Address(0x0a01_ffff)));
        assert!(rt; !rule.source.holds(Address(0x0a02_0000)));
        assert!(rt; rule.destination.holds(Address(0xc000_0200)));
        assert!(rt; !rule.destination.holds(Address(0xc000_0100)));
        assert_eq!(rt; rule.protocol, None);
        assert_eq!(rt; rule.class, Class::Two);
        assert_eq!(rt; rule.mode, Mode::Blind);
        Ok(())
    }

    fn conversation(source: u32, destination: u32, protocol: u8) -> Key {
        Key::Conversation(Conversation {
            source: Address(source),
            destination: Address(destination),
            protocol,
        })
    }

    fn station(last: u8) -> Key {
        Key::Station(Station {
            source: [2, 0, 0, 0, 0, last],
        })
    }

    #[test]
    fn example_keys(rt: HostRuntime) -> Result<(), Fail> {
        let policy = read_policy(rt.alloc(), EXAMPLE.as_bytes())?;
        let keys = [
            (conversation(0x0a01_0009, 0xc000_0207, 6), 0),
            (conversation(0x0a01_0009, 0xc000_0207, 17), 1),
            (conversation(0x0a02_0304, 0xc633_6401, 17), 2),
            (conversation(0x0a01_0009, 0xc633_6401, 17), 3),
            (conversation(0x0a02_0305, 0xc633_6401, 17), 3),
            (station(0xa1), 4),
            (station(0xa2), 5),
        ];
        for (key, place) in keys {
            assert_eq!(rt; policy.rule_for(key), Some(place));
        }
        Ok(())
    }

    // The table of docs/POLICY.md.
    #[test]
    fn mistakes(rt: HostRuntime) -> Result<(), Fail> {
        lines_refused(
            &rt,
            rt.alloc(),
            &[
                ("", 1, 1),
                (" node 2 1 tb 1000 1400", 1, 1),
                ("Node 2 1 tb 1000 1400", 1, 1),
                ("node 3 1 tb 1000 1400", 2, 5),
                ("node 2 2 tb 1000 1400", 3, 5),
                ("node 2 1 xb 1000 1400", 4, 1),
                ("node 2 1 tb  1000 1400", 5, 1),
                ("node 2 1 tb 01000 1400", 5, 1),
                ("node 2 1 tb 0 1400", 5, 2),
                ("node 2 1 tb 1000", 6, 1),
                ("node 2 1 tb 1000 0", 6, 3),
                ("node 2 1 tb 1000 1400 ", 7, 1),
                ("node 2 1 sr 500 0 0", 7, 3),
                ("node 2 1 tr 1000 500 999 800", 7, 4),
                ("ip 10.0.0.1/8 0.0.0.0/0 any 1 1 blind tb 1000 1400", 2, 1),
                ("ip 10.0.0.0/8 0.0.0.0/33 any 1 1 blind tb 1000 1400", 3, 1),
                ("ip 10.0.0.0/8 0.0.0.0/0 256 1 1 blind tb 1000 1400", 4, 1),
                ("ip 10.0.0.0/8 0.0.0.0/0 any 2 1 blind tb 1000 1400", 5, 5),
                ("ip 10.0.0.0/8 0.0.0.0/0 any 1 5 blind tb 1000 1400", 6, 1),
                ("ip 10.0.0.0/8 0.0.0.0/0 any 1 1 deaf tb 1000 1400", 7, 1),
                ("ip 10.0.0.0/8 0.0.0.0/0 any 1 1 blind sr 500 0 0", 11, 3),
                (
                    "ip 10.0.0.0/8 0.0.0.0/0 any 1 1 blind tb 10000000000000 1400",
                    9,
                    1,
                ),
                ("mac 02000000000A 1 tb 1000 1400", 2, 1),
                ("mac any 1 tb 1000 1400 1", 7, 1),
            ],
        )
    }

    #[test]
    fn plain_meters_out_of_range(rt: HostRuntime) -> Result<(), Fail> {
        lines_refused(
            &rt,
            rt.alloc(),
            &[
                ("node 2 0 vs 0 5", 5, 2),
                ("node 2 0 vs 1000000001 5", 5, 2),
                ("node 2 0 vs 10 1000000000001", 6, 3),
                ("node 2 0 lb 0 5", 5, 2),
                ("node 2 0 lb 1000000001 5", 5, 2),
                ("node 2 0 lb 10 1000000000001", 6, 3),
                ("node 2 0 tb 0 1", 5, 2),
                ("node 2 0 tb 1000000001 1", 5, 2),
                ("node 2 0 tb 1 0", 6, 3),
                ("node 2 0 tb 1 1000000001", 6, 3),
            ],
        )
    }

    #[test]
    fn markers_out_of_range(rt: HostRuntime) -> Result<(), Fail> {
        lines_refused(
            &rt,
            rt.alloc(),
            &[
                ("node 2 0 sr 0 1 1", 5, 2),
                ("node 2 0 sr 1000000001 1 1", 5, 2),
                ("node 2 0 sr 1 1000000001 1", 6, 3),
                ("node 2 0 sr 1 1 1000000001", 7, 3),
                ("node 2 0 sr 1 0 0", 7, 3),
                ("node 2 0 tr 0 1 1 1", 5, 2),
                ("node 2 0 tr 1000000001 1 1 1", 5, 2),
                ("node 2 0 tr 1 0 1 1", 6, 3),
                ("node 2 0 tr 1 1000000001 1 1", 6, 3),
                ("node 2 0 tr 1 1 0 1", 7, 2),
                ("node 2 0 tr 1 1 1000000001 1", 7, 2),
                ("node 2 0 tr 1000000000 1 999999999 1", 7, 4),
                ("node 2 0 tr 1 1 1 0", 8, 3),
                ("node 2 0 tr 1 1 1 1000000001", 8, 3),
            ],
        )
    }

    #[test]
    fn lines_at_their_bounds(rt: HostRuntime) -> Result<(), Fail> {
        lines_taken(
            &rt,
            rt.alloc(),
            &[
                "node 1 0 vs 1 0",
                "node 1 0 vs 1000000000 1000000000000",
                "node 1 0 lb 1 0",
                "node 1 0 lb 1000000000 1000000000000",
                "node 1 0 tb 1 1",
                "node 1 0 tb 1000000000 1000000000",
                "node 1 0 sr 1 0 1",
                "node 1 0 sr 1 1 0",
                "node 1 0 sr 1000000000 1000000000 1000000000",
                "node 1 0 tr 1 1 1 1",
                "node 1 0 tr 1000000000 1000000000 1000000000 1000000000",
                "ip 255.255.255.255/32 128.0.0.0/1 0 0 1 aware tb 1 1",
                "ip 10.0.0.0/7 255.255.255.254/31 255 0 4 blind tb 1 1",
                "mac 000000000000 0 tb 1 1",
                "mac 0123456789ab 0 tb 1 1",
                "mac cdefffffffff 0 tb 1 1",
            ],
        )
    }

    #[test]
    fn numbers_of_wrong_form(rt: HostRuntime) -> Result<(), Fail> {
        lines_refused(
            &rt,
            rt.alloc(),
            &[
                ("node 02 0 tb 1 1", 2, 1),
                ("node 2 00 tb 1 1", 3, 1),
                ("node +2 0 tb 1 1", 2, 1),
                ("node 2 0 tb 1 1\r", 6, 1),
                // 13 digits are a number, 14 are none
                ("node 2 0 tb 9999999999999 1", 5, 2),
                ("node 2 0 tb 10000000000000 1", 5, 1),
                ("node 2 9999999999999 tb 1 1", 3, 5),
                ("node 2 10000000000000 tb 1 1", 3, 1),
            ],
        )
    }

    #[test]
    fn rules_of_wrong_form(rt: HostRuntime) -> Result<(), Fail> {
        lines_refused(
            &rt,
            rt.alloc(),
            &[
                ("ip 256.0.0.0/8 0.0.0.0/0 any 0 1 blind tb 1 1", 2, 1),
                ("ip 010.0.0.0/8 0.0.0.0/0 any 0 1 blind tb 1 1", 2, 1),
                ("ip 10.0.0/8 0.0.0.0/0 any 0 1 blind tb 1 1", 2, 1),
                ("ip 10.0.0.0 0.0.0.0/0 any 0 1 blind tb 1 1", 2, 1),
                ("ip 0.0.0.0/0 0.0.0.0/33 any 0 1 blind tb 1 1", 3, 1),
                ("ip 0.0.0.0/0 0.0.0.1/31 any 0 1 blind tb 1 1", 3, 1),
                ("ip 0.0.0.0/0 128.0.0.0/0 any 0 1 blind tb 1 1", 3, 1),
                ("ip 0.0.0.0/0 0.0.0.0/0 256 0 1 blind tb 1 1", 4, 1),
                ("ip 0.0.0.0/0 0.0.0.0/0 any 0 0 blind tb 1 1", 6, 1),
                ("ip 0.0.0.0/0 0.0.0.0/0 any 0 5 blind tb 1 1", 6, 1),
                ("mac 02000000000A 0 tb 1 1", 2, 1),
                ("mac 0200000000a 0 tb 1 1", 2, 1),
                ("mac 0200000000a10 0 tb 1 1", 2, 1),
            ],
        )
    }

    #[test]
    fn missing_and_extra_words(rt: HostRuntime) -> Result<(), Fail> {
        lines_refused(
            &rt,
            rt.alloc(),
            &[
                ("node", 2, 1),
                ("node 2", 3, 1),
                ("node 2 0", 4, 1),
                ("node 2 0 vs 1", 6, 1),
                ("node 2 0 lb 1 1 1", 7, 1),
                ("node 2 0 sr 1 1", 7, 1),
                ("node 2 0 sr 1 1 1 1", 8, 1),
                ("node 2 0 tr 1 1 1", 8, 1),
                ("node 2 0 tr 1 1 1 1 1", 9, 1),
                ("ip 0.0.0.0/0 0.0.0.0/0 any 0 1", 7, 1),
                ("ip 0.0.0.0/0 0.0.0.0/0 any 0 1 blind", 8, 1),
                ("ip 0.0.0.0/0 0.0.0.0/0 any 0 1 blind tr 1 1 1 1 1", 13, 1),
                ("mac any 0", 4, 1),
            ],
        )
    }

    #[test]
    fn texts(rt: HostRuntime) {
        let heap = rt.alloc();
        assert_eq!(rt; counts(heap, b""), Some((0, 0)));
        texts_refused(
            &rt,
            heap,
            &[
                ("\n", 1, 1, 1),
                ("node 1 0 tb 1 1\n\n", 2, 1, 1),
                ("node 1 0 tb 1 1", 1, 0, 1),
                ("node 1 0 tb 1 1\nx", 2, 0, 1),
                ("x\nnode 1 0 tb 1 1", 1, 1, 1),
                ("node 1 1 tb 1 1\n", 1, 3, 5),
                ("node 0 0 tb 1 1\n", 1, 2, 5),
                ("node 1 0 tb 1 1\nnode 1 0 tb 1 1\n", 2, 2, 5),
                // a rule's node stands before it
                ("mac any 1 tb 1 1\nnode 1 0 tb 1 1\n", 1, 3, 5),
            ],
        );
    }

    #[test]
    fn long_lines_and_texts(rt: HostRuntime) -> Result<(), Fail> {
        let heap = rt.alloc();
        let line = "node 1 0 tb 1 1";
        // spaces up to 120 bytes begin with an extra word, which is empty
        let longest = format!(in heap; "{line:<120}\n")?;
        assert_eq!(rt; refused(heap, longest.as_bytes()), Some((1, 7, 1)));
        let longer = format!(in heap; "{line:<121}\n")?;
        assert_eq!(rt; refused(heap, longer.as_bytes()), Some((1, 0, 1)));
        let most = vec![in heap; b'\n'; 65_536]?;
        assert_eq!(rt; refused(heap, &most), Some((1, 1, 1)));
        let more = vec![in heap; b'\n'; 65_537]?;
        assert_eq!(rt; refused(heap, &more), Some((0, 0, 1)));
        Ok(())
    }

    #[test]
    fn thirty_three_nodes(rt: HostRuntime) -> Result<(), Fail> {
        let heap = rt.alloc();
        let mut text = String::new(heap);
        for number in 1..33 {
            write!(text, "node {number} 0 tb 1 1\n")?;
        }
        let rule = behind(heap, text.as_str(), "mac any 32 tb 1 1", counts)?;
        assert_eq!(rt; rule, Some((32, 1)));
        let node = behind(heap, text.as_str(), "node x", refused)?;
        assert_eq!(rt; node, Some((33, 1, 7)));
        Ok(())
    }

    #[test]
    fn sixty_five_rules(rt: HostRuntime) -> Result<(), Fail> {
        let heap = rt.alloc();
        let mut text = String::new(heap);
        for _ in 0..32 {
            text.push_str("mac any 0 tb 1 1\n")?;
            text.push_str("ip 0.0.0.0/0 0.0.0.0/0 any 0 1 blind tb 1 1\n")?;
        }
        let node = behind(heap, text.as_str(), "node 1 0 tb 1 1", counts)?;
        assert_eq!(rt; node, Some((1, 64)));
        let ip = behind(heap, text.as_str(), "ip x", refused)?;
        assert_eq!(rt; ip, Some((65, 1, 7)));
        let mac = behind(heap, text.as_str(), "mac", refused)?;
        assert_eq!(rt; mac, Some((65, 1, 7)));
        Ok(())
    }

    #[test]
    fn seven_deep(rt: HostRuntime) -> Result<(), Fail> {
        let heap = rt.alloc();
        let mut text = String::new(heap);
        for parent in 0..7 {
            let number = parent + 1;
            write!(text, "node {number} {parent} tb 1 1\n")?;
        }
        let beside = behind(heap, text.as_str(), "node 8 6 tb 1 1", counts)?;
        assert_eq!(rt; beside, Some((8, 0)));
        let rule = behind(heap, text.as_str(), "mac any 7 tb 1 1", counts)?;
        assert_eq!(rt; rule, Some((7, 1)));
        let below = behind(heap, text.as_str(), "node 8 7 tb 0 0", refused)?;
        assert_eq!(rt; below, Some((8, 3, 6)));
        Ok(())
    }
}
