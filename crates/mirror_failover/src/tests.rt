//! Turns as a person counts them.

use crate::{Counts, DrawnMirror, Side, first_available, selected};
use std::test::Fail;

#[test]
fn turns_by_hand(rt: HostRuntime) -> Result<(), Fail> {
    for n in 1..11 {
        assert_eq!(rt; selected(33, n), n % 3 == 1);
        assert_eq!(rt; selected(0, n), false);
        assert_eq!(rt; selected(100, n), true);
        assert_eq!(rt; selected(50, n), n % 2 == 1);
        assert_eq!(rt; selected(1, n), n == 1);
    }
    assert_eq!(rt; selected(1, 100), false);
    assert_eq!(rt; selected(1, 101), true);
    assert_eq!(rt; selected(99, 101), true);
    assert_eq!(rt; selected(99, 100), false);
    assert_eq!(rt; selected(100, 1 << 62), true);

    let mut counts = Counts::new(rt.alloc(), &[0, 33, 100, 50])?;
    for (n, mirrors) in [(1, 14), (2, 4), (3, 12), (4, 6), (5, 12), (6, 4), (7, 14)] {
        let turn = DrawnMirror::Turn {
            n,
            selected: mirrors,
        };
        assert_eq!(rt; counts.step(), turn);
    }

    let mut lonely = Counts::new(rt.alloc(), &[])?;
    assert_eq!(rt; lonely.step(), DrawnMirror::Turn { n: 1, selected: 0 });

    assert_eq!(rt; first_available(true, true), Some(Side::Main));
    assert_eq!(rt; first_available(true, false), Some(Side::Main));
    assert_eq!(rt; first_available(false, true), Some(Side::Fallback));
    assert_eq!(rt; first_available(false, false), None);
    Ok(())
}
