ghost use Rattle.std.specs.Prelude.{◌+◌, false, slice_index_or};

use crate::closing::closure;
use crate::row::Row;
use crate::step::Step;

// Each atom follows from the one after it.
#[derive(Clone, Copy)]
struct Chain;

impl Step<5, Row<5>> for Chain {
    ghost follows = { λ _ s a. slice_index_or s (a + 1) false };

    ghost laws = { record { grows = λ _ s t p q w a h. w (a + 1) h } };

    fn mark(&self, from: &Row<5>, out: &mut Row<5>) {
        for a in 0..5u16 {
            if from.has(a + 1) {
                out.put(a);
            }
        }
    }
}

#[test]
fn narrow(rt: HostRuntime) {
    let mut row = Row::<5>::clear();
    row.put(4);
    row.put(5);
    assert!(rt; row.has(4));
    assert!(rt; !row.has(5));
    assert_eq!(rt; row.count(), 1);
}

#[test]
fn wide(rt: HostRuntime) {
    let mut row = Row::<96>::clear();
    row.put(0);
    row.put(95);
    let mut other = Row::<96>::clear();
    other.put(95);
    assert!(rt; row.union(&other) == row);
    assert!(rt; row != other);
    let rest = row.minus(&other);
    assert!(rt; rest.has(0));
    assert_eq!(rt; rest.count(), 1);
}

#[test]
fn chained(rt: HostRuntime) {
    let mut start = Row::<5>::clear();
    start.put(3);
    let all = closure(&Chain, &start);
    assert_eq!(rt; all.count(), 4);
    assert!(rt; !all.has(4));
}
