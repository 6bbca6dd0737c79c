use crate::local::Local;
use compression::part::Part;
use frames::offsets::OffsetTable;
use frames::pass::Pass;
use frames::rule::{Direction, Feed, Rule};
use std::marker::PhantomData;

// Takes only what may be sent to another thread, and shared with one.
fn sent<T: Send + Sync + Copy>(value: T) -> T {
    value
}

#[test]
fn all_may_be_sent(rt: HostRuntime) {
    let mut f = Local {
        marker: PhantomData,
    };
    let table = sent(OffsetTable::filled(&mut f, 2));
    let part: Part<Local> = sent(table.star);
    let pass = sent(Pass {
        index: 1,
        offset: part,
        value: part,
    });
    let rule = sent(Rule {
        direction: Direction::Seal,
        feed: sent(Feed::Fixed(part, part)),
    });
    assert_eq!(rt; pass.offset.as_slice(), [0; 32].as_slice());
    assert_eq!(rt; rule.direction.page(&[1], &[2]), [1].as_slice());
}
