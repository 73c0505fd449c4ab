//! What worked counts say of home and of a void sector.

use super::*;
use flash_traits::Region;

#[test]
fn counts_say_home_and_void(rt: HostRuntime) {
    let even = [
        (0, Region::S0),
        (2, Region::S1),
        (4, Region::S0),
        (8192, Region::S0),
    ];
    for (count, home) in even {
        assert_eq!(rt; (home_of(count), void_of(count)), (Some(home), None));
        assert_eq!(rt; first_sector(count), home);
    }
    let odd = [
        (1, Region::S0),
        (3, Region::S1),
        (5, Region::S0),
        (8191, Region::S1),
    ];
    for (count, void) in odd {
        assert_eq!(rt; (home_of(count), void_of(count)), (None, Some(void)));
        assert_eq!(rt; second_sector(count), void);
    }
}
