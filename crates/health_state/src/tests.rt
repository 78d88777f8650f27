//! A balancer of two servers, probed every 30 seconds.

use crate::Verdicts;
use std::test::Fail;

#[test]
fn two_servers(rt: HostRuntime) -> Result<(), Fail> {
    let mut verdicts = Verdicts::new(rt.alloc(), 2, 30000, 0)?;
    assert_eq!(rt; verdicts.mask(), 3);
    assert_eq!(rt; verdicts.due(0), Some(0));
    verdicts.begin(0);
    assert_eq!(rt; verdicts.due(0), Some(1));
    verdicts.take(0, false, 100);
    assert_eq!(rt; verdicts.mask(), 2);
    assert_eq!(rt; verdicts.due(100), Some(1));
    verdicts.begin(1);
    assert_eq!(rt; verdicts.due(30099), None);
    assert_eq!(rt; verdicts.due(30100), Some(0));
    verdicts.begin(0);
    assert_eq!(rt; verdicts.due(u64::MAX), None);
    verdicts.take(0, true, u64::MAX - 1);
    assert_eq!(rt; verdicts.mask(), 3);
    assert_eq!(rt; verdicts.due(u64::MAX - 1), None);
    assert_eq!(rt; verdicts.due(u64::MAX), Some(0));

    let all = Verdicts::new(rt.alloc(), 64, 1, 5)?;
    assert_eq!(rt; all.mask(), u64::MAX);
    assert_eq!(rt; all.due(4), None);
    assert_eq!(rt; all.due(5), Some(0));
    let none = Verdicts::new(rt.alloc(), 0, 1, 5)?;
    assert_eq!(rt; none.mask(), 0);
    assert_eq!(rt; none.due(5), None);
    Ok(())
}
