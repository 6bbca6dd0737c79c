// Tests by counter over SHA-256, with a page of 30 bytes and tags of 16.
use crate::narrow::Narrow;
use address::address::Addressed;
use base::refusal::{Cause, Refusal};
use compression::keyed::Keyed;
use keyed_sha2::sha256::Sha256;
use scheme::scheme::Scheme;
use std::process::Abort;
use two_pass::modes::Counter;

const NONCE: [u8; 12] = [0x11; 12];

const PAGE: &[u8; 30] = b",ALICE'S ,ADV5TURES 9 ,WOND]L&";

const EAST: &[u8; 16] = b"embosser in east";

const WEST: &[u8; 16] = b"embosser in west";

// What each byte of an output holds before a call.
const BEFORE: u8 = 0xaa;

fn counter() -> Counter<Sha256> {
    Counter::new(Sha256::new())
}

fn sealed<S: Scheme>(rt: &impl Abort, scheme: &mut S, ad: &[u8]) -> [u8; 46] {
    let mut body = [0; 46];
    assert_eq!(rt; scheme.seal(&NONCE, ad, PAGE, &mut body), Ok(46));
    body
}

// The scheme opens the body to the page, and changes nothing behind it.
fn opens<S: Scheme>(rt: &impl Abort, scheme: &mut S, ad: &[u8], body: &[u8]) {
    let mut out = [BEFORE; 40];
    assert_eq!(rt; scheme.open(&NONCE, ad, body, &mut out), Ok(30));
    assert_eq!(rt; &out[0..30], PAGE.as_slice());
    assert_eq!(rt; &out[30..40], [BEFORE; 10].as_slice());
}

// The scheme refuses the body, and zeros stand where the page would.
fn refuses<S: Scheme>(rt: &impl Abort, scheme: &mut S, ad: &[u8], body: &[u8]) {
    let mut out = [BEFORE; 40];
    let refusal = Refusal {
        cause: Cause::NotGenuine,
        layer: 1,
        figure: 0,
    };
    assert_eq!(rt; scheme.open(&NONCE, ad, body, &mut out), Err(refusal));
    assert_eq!(rt; &out[0..30], [0; 30].as_slice());
    assert_eq!(rt; &out[30..40], [BEFORE; 10].as_slice());
}

// The scheme refuses so much associated data in both ways, and changes nothing.
fn takes_less<S: Scheme>(rt: &impl Abort, scheme: &mut S, ad: &[u8], layer: u8) {
    let mut out = [BEFORE; 46];
    let refusal = Refusal {
        cause: Cause::AdTooLong,
        layer,
        figure: ad.len(),
    };
    assert_eq!(rt; scheme.seal(&NONCE, ad, PAGE, &mut out), Err(refusal));
    assert_eq!(rt; out, [BEFORE; 46]);
    assert_eq!(rt; scheme.open(&NONCE, ad, &[0; 46], &mut out), Err(refusal));
    assert_eq!(rt; out, [BEFORE; 46]);
}

#[test]
fn a_page_for_two_machines(rt: HostRuntime) {
    let mut east = Addressed::new(counter(), *EAST);
    let mut west = Addressed::new(counter(), *WEST);
    let ad = b"job 5";
    let body = sealed(&rt, &mut east, ad);
    assert_ne!(rt; sealed(&rt, &mut west, ad), body);
    opens(&rt, &mut east, ad, &body);
    refuses(&rt, &mut west, ad, &body);
    refuses(&rt, &mut counter(), ad, &body);
}

#[test]
fn the_address_stands_in_front(rt: HostRuntime) {
    let mut east = Addressed::new(counter(), *EAST);
    let body = sealed(&rt, &mut counter(), b"embosser in eastjob 5");
    assert_eq!(rt; sealed(&rt, &mut east, b"job 5"), body);
    assert_eq!(rt; east.limits().ad, 1008);
    takes_less(&rt, &mut east, &[0; 1009], 2);
}

#[test]
fn the_innermost_address_comes_first(rt: HostRuntime) {
    let mut pile = Addressed::new(Addressed::new(counter(), *EAST), *WEST);
    let body = sealed(
        &rt,
        &mut counter(),
        b"embosser in eastembosser in westjob 5",
    );
    assert_eq!(rt; sealed(&rt, &mut pile, b"job 5"), body);
    opens(&rt, &mut pile, b"job 5", &body);
    assert_eq!(rt; pile.limits().ad, 992);
    let body = sealed(&rt, &mut pile, &[7; 992]);
    opens(&rt, &mut pile, &[7; 992], &body);
    takes_less(&rt, &mut pile, &[7; 993], 2);
}

#[test]
fn an_address_is_cut_to_its_leftmost_bytes(rt: HostRuntime) {
    let mut narrow = Narrow::new(counter());
    takes_less(&rt, &mut narrow, b"embos!", 9);
    let mut east = Addressed::new(narrow, *EAST);
    assert_eq!(rt; east.limits().ad, 0);
    let body = sealed(&rt, &mut counter(), b"embos");
    assert_eq!(rt; sealed(&rt, &mut east, &[]), body);
    opens(&rt, &mut east, &[], &body);
    takes_less(&rt, &mut east, b"j", 2);
}
