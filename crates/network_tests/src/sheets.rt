//! Sheets that are read: the star, the limits, each refusal of a sheet, and damage to every bit and length.
use crate::bit_string::{BitString, sheet};
use crate::fault::Fault::{self, Refused};
use crate::judge::judge;
use crate::star::ask_star;
use network::{Network, SheetNetwork, read_sheet};
use std::alloc::{AllocError, Global};
use std::process::Abort;
use std::test::Fail;

const STAR: [u8; 7] = [0x08, 0x08, 0x00, 0x03, 0x48, 0xC1, 0xB0];

fn answer(bytes: &[u8]) -> Result<(), Fault> {
    let mut place = SheetNetwork::lone();
    let mut order = [0u16; 512];
    Ok(read_sheet(bytes, &mut place, &mut order)?)
}

// The answer to the bytes, which the other method gives too.
fn judged_alike(rt: &impl Abort, heap: Global, bytes: &[u8]) -> Result<(), Fault> {
    let got = answer(bytes);
    assert_eq!(rt; got, judge(heap, bytes));
    got
}

// A sheet of n stations without couplings, in rising order.
fn uncoupled(heap: Global, n: u32) -> Result<Vec<u8>, AllocError> {
    let order = (0..n).collect::<Vec<u32>>(heap)?;
    sheet(heap, n, &[], &order)
}

// A sheet of five stations and five couplings.
fn five_stations(heap: Global) -> Result<Vec<u8>, AllocError> {
    let pairs = [(1, 0), (2, 1), (3, 0), (4, 1), (4, 3)];
    sheet(heap, 5, &pairs, &[4, 2, 0, 1, 3])
}

#[test]
fn star_is_read(rt: HostRuntime) {
    let mut place = SheetNetwork::lone();
    let mut order = [9u16; 6];
    assert_eq!(rt; read_sheet(&STAR, &mut place, &mut order), Ok(()));
    ask_star(&rt, &place);
    assert_eq!(rt; order, [0, 1, 2, 3, 9, 9]);
}

#[test]
fn refused_sheet_leaves_place_and_list(rt: HostRuntime) {
    let mut place = SheetNetwork::lone();
    let mut order = [9u16; 6];
    assert_eq!(rt; read_sheet(&STAR, &mut place, &mut order), Ok(()));
    let refused = read_sheet(&[8, 2, 0, 0, 1], &mut place, &mut order);
    assert_eq!(rt; refused.map_err(Fault::from), Err(Refused(8, 33)));
    assert_eq!(rt; place.size(), 4);
    assert_eq!(rt; order, [0, 1, 2, 3, 9, 9]);
    let mut short = [7u16; 3];
    let refused = read_sheet(&STAR, &mut place, &mut short);
    assert_eq!(rt; refused.map_err(Fault::from), Err(Refused(16, 4)));
    assert_eq!(rt; short, [7, 7, 7]);
}

#[test]
fn limits(rt: HostRuntime) -> Result<(), Fail> {
    let heap = rt.alloc();
    assert_eq!(rt; answer(&uncoupled(heap, 512)?), Ok(()));
    assert_eq!(rt; answer(&uncoupled(heap, 513)?), Err(Refused(3, 5)));
    assert_eq!(rt; answer(&uncoupled(heap, 0)?), Err(Refused(3, 5)));
    let six = [(1, 0), (2, 0), (2, 1), (3, 0), (3, 1), (3, 2)];
    assert_eq!(rt; answer(&sheet(heap, 4, &six, &[3, 1, 2, 0])?), Ok(()));
    let seven = [(1, 0), (2, 0), (2, 1), (3, 0), (3, 1), (3, 2), (3, 2)];
    assert_eq!(rt;
        answer(&sheet(heap, 4, &seven, &[3, 1, 2, 0])?),
        Err(Refused(4, 15))
    );
    Ok(())
}

#[test]
fn each_refusal_of_a_sheet(rt: HostRuntime) -> Result<(), Fail> {
    let heap = rt.alloc();
    assert_eq!(rt; answer(&[]), Err(Refused(1, 0)));
    assert_eq!(rt; answer(&[8, 8, 0]), Err(Refused(1, 0)));
    assert_eq!(rt; answer(&[8, 8, 0, 3]), Err(Refused(1, 32)));
    assert_eq!(rt; answer(&[8, 8, 0, 3, 0x48, 0xC1]), Err(Refused(1, 48)));
    assert_eq!(rt; answer(&[0x10, 8, 0, 0]), Err(Refused(2, 0)));
    assert_eq!(rt;
        answer(&sheet(heap, 3, &[(3, 0)], &[0, 1, 2])?),
        Err(Refused(5, 32))
    );
    let order = [0, 1, 2, 3];
    assert_eq!(rt;
        answer(&sheet(heap, 4, &[(1, 0), (2, 2)], &order)?),
        Err(Refused(5, 36))
    );
    assert_eq!(rt;
        answer(&sheet(heap, 4, &[(2, 0), (1, 0)], &order)?),
        Err(Refused(6, 36))
    );
    assert_eq!(rt;
        answer(&sheet(heap, 4, &[(2, 1), (2, 1)], &order)?),
        Err(Refused(6, 36))
    );
    assert_eq!(rt;
        answer(&sheet(heap, 3, &[], &[0, 3, 1])?),
        Err(Refused(7, 34))
    );
    assert_eq!(rt;
        answer(&sheet(heap, 4, &[(1, 0)], &[0, 1, 2, 1])?),
        Err(Refused(7, 42))
    );
    assert_eq!(rt; answer(&[8, 2, 0, 0, 0, 0]), Err(Refused(8, 33)));
    assert_eq!(rt; answer(&[8, 2, 0, 0, 1]), Err(Refused(8, 33)));
    Ok(())
}

#[test]
fn damaged_sheets_get_the_defined_answer(rt: HostRuntime) -> Result<(), Fail> {
    let heap = rt.alloc();
    let whole = five_stations(heap)?;
    assert_eq!(rt; answer(&whole), Ok(()));
    let mut sheet = BitString::of_bytes(heap, &whole)?;
    let mut refused = 0u32;
    for at in 0..sheet.bits().len() {
        sheet.turn(at);
        let got = judged_alike(&rt, heap, &sheet.bytes(heap)?);
        sheet.turn(at);
        refused = refused.wrapping_add(u32::from(got.is_err()));
    }
    // a turned bit leaves a sheet only where the sheet's own rules still hold
    assert!(rt; refused > 60);
    Ok(())
}

#[test]
fn cut_sheets_get_the_defined_answer(rt: HostRuntime) -> Result<(), Fail> {
    let heap = rt.alloc();
    let mut whole = five_stations(heap)?;
    for end in 0..whole.len() {
        let got = judged_alike(&rt, heap, &whole[..end]);
        assert!(rt; matches!(got, Err(Refused(1, _))));
    }
    whole.push(0)?;
    let got = judged_alike(&rt, heap, &whole);
    assert!(rt; matches!(got, Err(Refused(8, _))));
    Ok(())
}
