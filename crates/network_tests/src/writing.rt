//! Sheets that are written: read and written again at several sizes, from neighbour lists, and refused.
use crate::bit_string::sheet;
use crate::fault::Fault::{self, Refused};
use network::{ListNetwork, Network, SheetNetwork, read_lists, read_sheet, write_sheet};
use std::alloc::{AllocError, Global};
use std::process::Abort;
use std::test::Fail;

fn answer(place: &ListNetwork, order: &[u16], out: &mut [u8]) -> Result<usize, Fault> {
    Ok(write_sheet(place, order, out)?)
}

// Four stations, of which the first is coupled to each other.
fn star<'a>(rt: &impl Abort) -> ListNetwork<'a> {
    let mut place = ListNetwork::lone();
    let read = read_lists(&[0, 3, 4, 5, 6], &[1, 2, 3, 0, 0, 0], &mut place);
    assert_eq!(rt; read, Ok(()));
    place
}

// A ring of n stations, in falling order, as a sheet.
fn ring(heap: Global, n: u32) -> Result<Vec<u8>, AllocError> {
    let mut pairs = (1..n).zip(0..n).collect::<Vec<(u32, u32)>>(heap)?;
    if n > 2 {
        pairs.push((n - 1, 0))?;
    }
    pairs.sort()?;
    let order = (0..n).rev().collect::<Vec<u32>>(heap)?;
    sheet(heap, n, &pairs, &order)
}

// A sheet is read, and written again as the same bytes before an untouched tail.
fn go_round(rt: &impl Abort, heap: Global, bytes: &[u8]) -> Result<(), AllocError> {
    let mut place = SheetNetwork::lone();
    let mut order = [0u16; 512];
    assert_eq!(rt; read_sheet(bytes, &mut place, &mut order), Ok(()));
    let stations = place.size() as usize;
    let mut again = vec![in heap; 9u8; bytes.len() + 1]?;
    assert_eq!(rt;
        write_sheet(&place, &order[..stations], &mut again),
        Ok(bytes.len())
    );
    assert!(rt; again.split_last() == Some((&9, bytes)));
    Ok(())
}

#[test]
fn sheets_go_round(rt: HostRuntime) -> Result<(), Fail> {
    let heap = rt.alloc();
    for n in [1u32, 2, 3, 4, 5, 512] {
        go_round(&rt, heap, &ring(heap, n)?)?;
    }
    Ok(())
}

#[test]
fn star_from_lists_is_the_same_sheet(rt: HostRuntime) {
    let place = star(&rt);
    let mut out = [7u8; 8];
    assert_eq!(rt; write_sheet(&place, &[0, 1, 2, 3], &mut out), Ok(7));
    assert_eq!(rt; out, [0x08, 0x08, 0x00, 0x03, 0x48, 0xC1, 0xB0, 7]);
}

#[test]
fn each_refusal_of_a_writing(rt: HostRuntime) {
    let place = star(&rt);
    let mut out = [7u8; 6];
    assert_eq!(rt; answer(&place, &[0, 1, 2], &mut out), Err(Refused(13, 3)));
    assert_eq!(rt;
        answer(&place, &[0, 1, 2, 3, 0], &mut out),
        Err(Refused(13, 5))
    );
    assert_eq!(rt;
        answer(&place, &[0, 1, 4, 3], &mut out),
        Err(Refused(14, 2))
    );
    assert_eq!(rt;
        answer(&place, &[0, 1, 2, 1], &mut out),
        Err(Refused(14, 3))
    );
    assert_eq!(rt;
        answer(&place, &[3, 1, 2, 0], &mut out),
        Err(Refused(16, 7))
    );
    assert_eq!(rt; answer(&place, &[3, 1, 2, 0], &mut []), Err(Refused(16, 7)));
    assert_eq!(rt; out, [7, 7, 7, 7, 7, 7]);
}
