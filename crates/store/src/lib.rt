//! Numbered nodes over inner tables of nodes, links and texts.
#![tactic(auto)]

pub mod branches;
mod call;
pub mod location;
pub mod parts;
pub mod store;
pub mod table;
pub mod texts;
pub mod view;

#[cfg(test)]
mod tests {
    use crate::branches::Branches;
    use crate::store::Store;
    use codes::kind::Kind;
    use leaves::leaf::{Leaf, boolean, nothing};
    use leaves::literal::Unknown;
    use leaves::text::Text;
    use leaves::text_list::TextList;
    use pairs::pairs::Pairs;
    use std::test::Fail;
    use terms::refusal::Refusal;

    // Adds a blank without a type, and says its number, or a number that no node has.
    fn blank(store: &mut Store, name: &[u8]) -> u32 {
        let unknown = Leaf::Unknown(Unknown {
            name: Text(name),
            type_annotation: None,
        });
        store
            .build(Kind::Unknown, unknown, &[], None)
            .unwrap_or(u32::MAX)
    }

    // Whether the node is a boolean literal.
    fn is_literal(store: &Store, number: u32) -> bool {
        matches!(store.view(number), Ok(view) if matches!(view.kind, Kind::Lit))
    }

    #[test]
    fn paid_and_tested(rt: HostRuntime) {
        let mut store = Store::new(rt.alloc()).expect(&rt, "no memory");
        let paid = blank(&mut store, b"paid");
        let tested = blank(&mut store, b"tested");
        let both = store.build(Kind::And, nothing(), &[paid, tested], None);
        assert!(rt; matches!(both, Ok(2)));
        assert!(rt; matches!(store.link(2, 1), Ok(Some((_, 1)))));
        assert!(rt; matches!(store.link(2, 2), Ok(None)));
        assert!(rt; matches!(store.view(3), Err(Refusal::Node)));
        assert_eq!(rt; store.count(), 3);
    }

    #[test]
    fn literals_fold(rt: HostRuntime) {
        let mut store = Store::new(rt.alloc()).expect(&rt, "no memory");
        let yes = store.build(Kind::Lit, boolean(true), &[], None);
        assert!(rt; matches!(yes, Ok(0)));
        let both = store.build(Kind::And, nothing(), &[0, 0], None);
        assert!(rt; matches!(both, Ok(1)));
        assert!(rt; is_literal(&store, 1));
        let missing = store.build(Kind::And, nothing(), &[0, 2], None);
        assert!(rt; matches!(missing, Err(Refusal::Node)));
        assert_eq!(rt; store.count(), 2);
    }

    #[test]
    fn record_of_a_pair(rt: HostRuntime) {
        let mut store = Store::new(rt.alloc()).expect(&rt, "no memory");
        let mut pairs = Pairs::new(rt.alloc()).expect(&rt, "no memory");
        let paid = blank(&mut store, b"paid");
        assert!(rt; pairs.put(b"k", paid).is_ok());
        assert!(rt; matches!(store.record(&pairs, None), Ok(1)));
        assert!(rt; matches!(store.link(1, 0), Ok(Some((b"k", 0)))));
    }

    #[test]
    fn iterators_are_cloned(rt: HostRuntime) -> Result<(), Fail> {
        let mut pairs = Pairs::new(rt.alloc()).expect(&rt, "no memory");
        assert!(rt; pairs.put(b"k", 7).is_ok());
        let mut keyed = pairs.iter().clone()?;
        assert!(rt; matches!(keyed.next(), Some((b"k", 7))));
        let mut children = Branches::Plain(&[5]).into_iter().clone()?;
        assert!(rt; matches!(children.next(), Some((b"", 5))));
        let mut texts = TextList::Given(&[b"paid"]).iter().clone()?;
        assert!(rt; matches!(texts.next(), Some(Text(b"paid"))));
        Ok(())
    }
}
