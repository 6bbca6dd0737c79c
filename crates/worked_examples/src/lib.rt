// The worked examples of docs/MODES.md: of the definitions by one computation, and of the code by
// tests through the public calls.
#![tactic(auto)]

ghost use Rattle.std.specs.Prelude.{◌≡◌, ◌≤◌, ◌↔◌, true, length, IsTrue};
ghost use Rattle.worked_examples.specs.Examples.{examples, elevens, SealsTo};

use calls::outputs::{BEFORE, changed};
use calls::trip::round_trip;
use scheme::scheme::Scheme;

// The definitions give the bytes of the worked examples.
pub fn examples_hold()
    ensures { examples ≡ true }
{}

// Whether `scheme` seals `page` to `expected` with the nonce of the examples, opens that again, and
// changes nothing behind the page.
pub fn seals_to<S: Scheme>(scheme: &mut S, ad: &[u8], page: &[u8], expected: &[u8]) -> bool
    requires { length page.now ≤ 64 }
    ensures kept { S.meaning scheme.new ≡ S.meaning scheme.old }
    ensures stays { S.layers scheme.new ≡ S.layers scheme.old }
    ensures seals { IsTrue result ↔ SealsTo (S.meaning scheme.old) (elevens 12) ad.now page.now expected.now }
{
    let mut body = [BEFORE; 64];
    let mut back = [BEFORE; 64];
    match round_trip(scheme, &[0x11; 12], ad, page, &mut body, &mut back) {
        Ok(n) => &body[..n] == expected && changed(&back[page.len()..]) == 0,
        Err(_) => false,
    }
}

#[cfg(test)]
mod tests {
    use crate::seals_to;
    use base::refusal::{Cause, Refusal};
    use book::pages::{open, seal};
    use calls::inputs::{Inputs, row};
    use compression::part::Part;
    use compression::trial::Trial;
    use keyed_sha2::sha512::Sha512;
    use omd::omd::Omd;
    use scheme::scheme::Scheme;
    use show::case::tell;
    use std::process::Abort;
    use std::test::Fail;

    // OMD over the trial function seals `page` to `expected`, and opens it again.
    fn both_ways(rt: &impl Abort, ad: &[u8], page: &[u8], expected: &[u8]) {
        assert!(rt; page.len() <= 64);
        assert!(rt; seals_to(&mut Omd::new(Trial), ad, page, expected));
    }

    #[test]
    fn empty_page(rt: HostRuntime) {
        both_ways(
            &rt,
            &[],
            &[],
            &[
                0x11, 0x11, 0x11, 0x11, 0x11, 0x11, 0x11, 0x11, 0x11, 0x11, 0x11, 0x11, 0x80, 0, 0,
                0,
            ],
        );
    }

    #[test]
    fn one_byte(rt: HostRuntime) {
        both_ways(
            &rt,
            &[],
            &[0x41],
            &[0x50, 0x41, 0x80, 0, 0, 0, 0, 0, 0, 0, 0, 0, 0, 0, 0, 0, 0],
        );
    }

    #[test]
    fn one_full_block(rt: HostRuntime) {
        both_ways(
            &rt,
            &[],
            &[0; 32],
            &[
                0x11, 0x11, 0x11, 0x11, 0x11, 0x11, 0x11, 0x11, 0x11, 0x11, 0x11, 0x11, 0x80, 0, 0,
                0, 0, 0, 0, 0, 0, 0, 0, 0, 0, 0, 0, 0, 0, 0, 0, 0x80, 0, 0, 0, 0, 0, 0, 0, 0, 0, 0,
                0, 0, 0, 0, 0, 0,
            ],
        );
    }

    #[test]
    fn associated_data(rt: HostRuntime) {
        both_ways(
            &rt,
            &[0x07],
            &[],
            &[
                0x16, 0x91, 0x11, 0x11, 0x11, 0x11, 0x11, 0x11, 0x11, 0x11, 0x11, 0x11, 0x80, 0, 0,
                0,
            ],
        );
    }

    #[test]
    fn refused_body(rt: HostRuntime) {
        let body = [0x51, 0x41, 0x80, 0, 0, 0, 0, 0, 0, 0, 0, 0, 0, 0, 0, 0, 0];
        let mut out = [0xaa; 3];
        let answer = Omd::new(Trial).open(&[0x11; 12], &[], &body, &mut out);
        assert_eq!(rt;
            answer,
            Err(Refusal {
                cause: Cause::NotGenuine,
                layer: 1,
                figure: 0,
            })
        );
        assert_eq!(rt; out, [0, 0xaa, 0xaa]);
    }

    #[test]
    fn told_in_print(rt: HostRuntime) -> Result<(), Fail> {
        let heap = rt.alloc();
        let inputs = Inputs {
            nonce: row(heap, 12, 0x11, 0)?,
            ad: Vec::new(heap),
            page: row(heap, 1, 0x41, 0)?,
        };
        let said = tell(heap, &mut Omd::new(Trial), &inputs)?;
        assert_eq!(rt; said.as_str(), "5041800000000000000000000000000000");
        let no_nonce = Inputs {
            nonce: Vec::new(heap),
            ..inputs
        };
        let said = tell(heap, &mut Omd::new(Trial), &no_nonce)?;
        assert_eq!(rt; said.as_str(), "no 3 1 0");
        Ok(())
    }

    #[test]
    fn shown_page(rt: HostRuntime) -> Result<(), Fail> {
        let mut omd = Omd::new(Trial);
        let body = seal(&rt, &mut omd, 1, "A")?.expect(&rt, "a body");
        assert_eq!(rt; body.len(), 17);
        let mut buffer = [0xaa; 2];
        open(&rt, &mut omd, 1, &body, &mut buffer)?;
        assert_eq!(rt; buffer, [0x41, 0xaa]);
        Ok(())
    }

    #[test]
    fn doubling(rt: HostRuntime) {
        let mut bytes = [0; 64];
        bytes[0] = 0x80;
        let narrow: Part<Trial> = Part::of(&bytes[0..32]).double();
        let wide: Part<Sha512> = Part::of(&bytes).double();
        let mut expected = [0; 64];
        expected[30] = 0x04;
        expected[31] = 0x25;
        assert_eq!(rt; narrow.as_slice(), &expected[0..32]);
        let mut expected = [0; 64];
        expected[62] = 0x01;
        expected[63] = 0x25;
        assert_eq!(rt; wide.as_slice(), expected.as_slice());
    }
}
