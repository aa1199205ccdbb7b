//! Pseudoranges without the ionosphere, and when their signals were sent.

use fix_interval::Exact;
use grid_model::Wide;
use pseudorange_prep::{corrected, dual, sent_at, single};
use std::test::Fail;

#[test]
fn ranges_hold_their_values(rt: HostRuntime) -> Result<(), Fail> {
    let first = Wide {
        lo: 20_000_000_000_000,
        hi: 20_000_000_000_000,
    };
    let second = Wide {
        lo: 20_000_005_000_000,
        hi: 20_000_005_000_000,
    };
    // 5929 * 20000000000000 - 3600 * 20000005000000, over 2329, is 19999992271361.1.
    let free = dual(first, second);
    assert!(rt; free.lo <= 19_999_992_271_361);
    assert!(rt; 19_999_992_271_362 <= free.hi);
    assert!(rt; free.hi - free.lo <= 8);
    assert_eq!(rt;
        single(first),
        Exact {
            lo: first.lo,
            hi: first.hi
        }
    );
    Ok(())
}

#[test]
fn signals_are_sent_a_flight_time_before(rt: HostRuntime) -> Result<(), Fail> {
    // 20985472.060 m is 0.07 s of light.
    let range = Exact {
        lo: 20_985_472_060_000,
        hi: 20_985_472_060_000,
    };
    let sent = sent_at(1_388_620_800_070_000_000_000, range);
    assert!(rt; sent.lo <= 1_388_620_800_000_000_000_000);
    assert!(rt; 1_388_620_800_000_000_000_000 <= sent.hi);
    assert!(rt; sent.hi - sent.lo <= 8);
    // A group delay of 10 ns is taken off: 2997924.58 um.
    let offset = Exact {
        lo: -100_000_000,
        hi: -100_000_000,
    };
    let less = corrected(range, offset);
    assert!(rt; less.lo <= 20_985_472_060_000 - 2_997_925);
    assert!(rt; 20_985_472_060_000 - 2_997_924 <= less.hi);
    Ok(())
}
