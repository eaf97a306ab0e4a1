//! Published digests, the bytes that leaves are fed as, and leaves in their order.
#![tactic(auto)]

#[cfg(test)]
mod tests {
    use feeds::Feed;
    use hashers::fnv::fnv1a;
    use hashers::hasher::Hasher;
    use hashers::tape::Tape;
    use leaves::literal::{Literal, Unknown};
    use leaves::name::Name;
    use leaves::pattern::PatternElem;
    use leaves::text::{Text, compare_text};
    use leaves::text_list::{Span, TextList};
    use orders::literal::compare_literal;
    use orders::name::compare_name;
    use orders::pattern::compare_pattern;
    use orders::texts::compare_texts;
    use terms::types::Type;

    // Texts with their published digests.
    const DIGESTS: [(&[u8], u64); 10] = [
        (b"", 0xcbf29ce484222325),
        (b"a", 0xaf63dc4c8601ec8c),
        (b"b", 0xaf63df4c8601f1a5),
        (b"c", 0xaf63de4c8601eff2),
        (b"fo", 0x08985907b541d342),
        (b"foo", 0xdcb27518fed9d577),
        (b"foob", 0xdd120e790c2512af),
        (b"fooba", 0xcac165afa2fef40a),
        (b"foobar", 0x85944171f73967e8),
        (b"hello", 0xa430d84680aabd0b),
    ];

    const NAME: Name<'static> = Name {
        base: Text(b"P"),
        namespaces: TextList::Given(&[]),
    };

    #[test]
    fn published_digests(rt: HostRuntime) {
        for (text, digest) in &DIGESTS {
            assert_eq!(rt; fnv1a(text), *digest);
        }
    }

    #[test]
    fn long_tape(rt: HostRuntime) {
        let mut tape = Tape::new();
        for _ in 0..299 {
            tape.write(7);
        }
        tape.write(8);
        assert_eq!(rt; tape.bytes(), [7; 256].as_slice());
        assert_eq!(rt; tape.count(), 300);
    }

    // A count before each text, each list of namespaces and each pattern.
    #[test]
    fn counted_layouts(rt: HostRuntime) {
        let mut tape = Tape::new();
        Text(b"hi").feed(&mut tape);
        assert_eq!(rt; tape.bytes(), b"\x02\0\0\0\0\0\0\0hi".as_slice());

        let mut tape = Tape::new();
        let name = Name {
            base: Text(b"P"),
            namespaces: TextList::Given(&[b"N"]),
        };
        name.feed(&mut tape);
        assert_eq!(rt;
            tape.bytes(),
            b"\x01\0\0\0\0\0\0\0P\x01\0\0\0\0\0\0\0\x01\0\0\0\0\0\0\0N".as_slice()
        );

        let mut tape = Tape::new();
        let pattern = [PatternElem::Scalar(0x1F600), PatternElem::Wildcard];
        pattern.as_slice().feed(&mut tape);
        assert_eq!(rt;
            tape.bytes(),
            b"\x02\0\0\0\0\0\0\0\0\0\xf6\x01\0\x01".as_slice()
        );

        let mut tape = Tape::new();
        (-2_i64).feed(&mut tape);
        assert_eq!(rt;
            tape.bytes(),
            b"\xfe\xff\xff\xff\xff\xff\xff\xff".as_slice()
        );
    }

    // A mark before each type and each literal.
    #[test]
    fn marked_layouts(rt: HostRuntime) {
        let mut tape = Tape::new();
        Type::Entity(NAME).feed(&mut tape);
        Type::<Name>::Set.feed(&mut tape);
        assert_eq!(rt;
            tape.bytes(),
            b"\x05\x01\0\0\0\0\0\0\0P\0\0\0\0\0\0\0\0\x03".as_slice()
        );

        let mut tape = Tape::new();
        let unknown = Unknown {
            name: Text(b"p"),
            type_annotation: Some(Type::<Name>::Long),
        };
        unknown.feed(&mut tape);
        assert_eq!(rt; tape.bytes(), b"\x01\0\0\0\0\0\0\0p\x01\x01".as_slice());

        let mut tape = Tape::new();
        let literals: [Literal<Text, Name>; 3] = [
            Literal::Bool(true),
            Literal::Long(1),
            Literal::String(Text(b"s")),
        ];
        for literal in literals {
            literal.feed(&mut tape);
        }
        assert_eq!(rt;
            tape.bytes(),
            b"\0\x01\x01\x01\0\0\0\0\0\0\0\x02\x01\0\0\0\0\0\0\0s".as_slice()
        );

        let mut tape = Tape::new();
        Literal::Entity(NAME, Text(b"i")).feed(&mut tape);
        assert_eq!(rt;
            tape.bytes(),
            b"\x03\x01\0\0\0\0\0\0\0P\0\0\0\0\0\0\0\0\x01\0\0\0\0\0\0\0i".as_slice()
        );
    }

    // Texts from the least to the greatest.
    const TEXTS: [&[u8]; 6] = [b"", b"\0", b"a", b"ab", b"b", b"\xff"];

    #[test]
    fn texts_in_order(rt: HostRuntime) {
        for (i, a) in TEXTS.iter().enumerate() {
            for (j, b) in TEXTS.iter().enumerate() {
                assert_eq!(rt; compare_text(a, b), i.cmp(&j));
            }
        }
    }

    #[test]
    fn leaves_in_order(rt: HostRuntime) {
        assert!(rt; compare_literal(Literal::Long(-1), Literal::Long(0)).is_lt());
        assert!(rt; compare_literal(Literal::Bool(true), Literal::Long(-9)).is_lt());
        assert!(rt;
            compare_literal(
                Literal::String(Text(b"z")),
                Literal::Entity(NAME, Text(b""))
            )
            .is_lt()
        );
        let wildcard = [PatternElem::Wildcard];
        let scalar = [PatternElem::Scalar(0x10FFFF), PatternElem::Scalar(0)];
        assert!(rt; compare_pattern(&scalar, &wildcard).is_lt());
        assert!(rt; compare_pattern(&[], &wildcard).is_lt());
    }

    // A list that is kept compares as the same list given.
    #[test]
    fn kept_as_given(rt: HostRuntime) {
        let spans = [Span { start: 2, len: 3 }, Span { start: 0, len: 2 }];
        let kept = TextList::Kept(b"abcde", &spans);
        assert!(rt; compare_texts(kept, TextList::Given(&[b"cde", b"ab"])).is_eq());
        assert!(rt; compare_texts(kept, TextList::Given(&[b"cde"])).is_gt());
        let name = Name {
            base: Text(b"P"),
            namespaces: kept,
        };
        assert!(rt; compare_name(NAME, name).is_lt());
    }
}
