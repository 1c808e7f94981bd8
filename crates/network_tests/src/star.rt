//! The star of four stations, of which the first is coupled to each other.
//! Whatever it was read from, it answers the same.
use network::Network;
use std::process::Abort;

/// Asks a network that should be the star.
pub(crate) fn ask_star<N: Network>(rt: &impl Abort, place: &N) {
    assert_eq!(rt; place.size(), 4);
    assert!(rt;
        place.coupled(0, 3) && place.coupled(3, 0) && !place.coupled(1, 2) && !place.coupled(0, 4)
    );
    assert_eq!(rt; place.next(0, 2), Some(2));
    assert_eq!(rt; place.next(3, 1), None);
    assert_eq!(rt; place.next(4, 0), None);
}
