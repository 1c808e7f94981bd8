//! Neighbour lists that are read: the star, each refusal, and what a refusal leaves.
use crate::fault::Fault::{self, Refused};
use crate::star::ask_star;
use network::{ListNetwork, Network, read_lists};

fn answer(starts: &[u32], names: &[u16]) -> Result<(), Fault> {
    let mut place = ListNetwork::lone();
    Ok(read_lists(starts, names, &mut place)?)
}

#[test]
fn place_starts_with_a_lone_station(rt: HostRuntime) {
    let place = ListNetwork::lone();
    assert_eq!(rt; place.size(), 1);
    assert_eq!(rt; place.next(0, 0), None);
}

#[test]
fn star_is_read(rt: HostRuntime) {
    let mut place = ListNetwork::lone();
    assert_eq!(rt;
        read_lists(&[0, 3, 4, 5, 6], &[1, 2, 3, 0, 0, 0], &mut place),
        Ok(())
    );
    ask_star(&rt, &place);
    // a front of its starts is refused, and leaves the star
    let refused = read_lists(&[0], &[1, 2, 3, 0, 0, 0], &mut place);
    assert_eq!(rt; refused.map_err(Fault::from), Err(Refused(9, 1)));
    assert_eq!(rt; place.size(), 4);
}

#[test]
fn each_refusal_of_lists(rt: HostRuntime) {
    assert_eq!(rt; answer(&[], &[]), Err(Refused(9, 0)));
    assert_eq!(rt; answer(&[0], &[]), Err(Refused(9, 1)));
    assert_eq!(rt; answer(&[0; 514], &[]), Err(Refused(9, 514)));
    assert_eq!(rt; answer(&[0; 513], &[]), Ok(()));
    assert_eq!(rt;
        answer(&[1, 3, 4, 5, 6], &[1, 2, 3, 0, 0, 0]),
        Err(Refused(10, 0))
    );
    assert_eq!(rt;
        answer(&[0, 3, 2, 5, 6], &[1, 2, 3, 0, 0, 0]),
        Err(Refused(10, 2))
    );
    assert_eq!(rt;
        answer(&[0, 3, 4, 5, 5], &[1, 2, 3, 0, 0, 0]),
        Err(Refused(10, 4))
    );
    assert_eq!(rt; answer(&[0, 4294967295], &[]), Err(Refused(10, 1)));
    assert_eq!(rt;
        answer(&[0, 3, 4, 5, 6], &[1, 2, 2, 0, 0, 0]),
        Err(Refused(11, 2))
    );
    assert_eq!(rt;
        answer(&[0, 3, 4, 5, 6], &[1, 2, 4, 0, 0, 0]),
        Err(Refused(11, 2))
    );
    assert_eq!(rt;
        answer(&[0, 3, 4, 5, 6], &[1, 2, 3, 1, 0, 0]),
        Err(Refused(11, 3))
    );
    assert_eq!(rt;
        answer(&[0, 3, 4, 5, 6], &[1, 2, 3, 0, 0, 1]),
        Err(Refused(12, 2))
    );
    assert_eq!(rt; answer(&[0, 1, 1], &[1]), Err(Refused(12, 0)));
}
