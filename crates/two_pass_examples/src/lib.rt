// The worked examples of serial and counter in docs/MODES.md: of the definitions by one computation,
// and of the code by tests through the public calls; and what all three modes recover of one.
#![tactic(auto)]

ghost use Rattle.std.specs.Prelude.{◌≡◌, true};
ghost use Rattle.two_pass_examples.specs.Examples.{examples};

// The definitions give the bytes of the worked examples.
pub fn examples_hold()
    ensures { examples ≡ true }
{}

#[cfg(test)]
mod tests {
    use calls::outputs::{BEFORE, changed};
    use compression::trial::Trial;
    use omd::omd::Omd;
    use scheme::inputs::Inputs;
    use scheme::mode::Mode;
    use std::process::Abort;
    use two_pass::modes::{Counter, Serial};
    use worked_examples::seals_to;

    // The tag stands in front.
    const EMPTY_IN_TWO_PASSES: [u8; 16] = [
        0x91, 0x11, 0x11, 0x11, 0x11, 0x11, 0x11, 0x11, 0x11, 0x11, 0x11, 0x11, 0x80, 0, 0, 0,
    ];

    const BYTE_IN_TWO_PASSES: [u8; 17] = [
        0x50, 0x91, 0x11, 0x11, 0x11, 0x11, 0x11, 0x11, 0x11, 0x11, 0x11, 0x11, 0x80, 0, 0, 0, 0,
    ];

    #[test]
    fn serial(rt: HostRuntime) {
        let mut serial = Serial::new(Trial);
        assert!(rt; seals_to(&mut serial, &[], &[], &EMPTY_IN_TWO_PASSES));
        assert!(rt; seals_to(&mut serial, &[], &[0x41], &BYTE_IN_TWO_PASSES));
    }

    #[test]
    fn counter(rt: HostRuntime) {
        let mut counter = Counter::new(Trial);
        assert!(rt; seals_to(&mut counter, &[], &[], &EMPTY_IN_TWO_PASSES));
        assert!(rt; seals_to(&mut counter, &[], &[0x41], &BYTE_IN_TWO_PASSES));
    }

    // The page 41 comes back from `body`, and its tag, and nothing behind either is written.
    fn recovers<M: Mode>(rt: &impl Abort, mode: &mut M, body: &[u8], tag: &[u8]) {
        let inputs = Inputs {
            nonce: &[0x11; 12],
            ad: &[],
        };
        let n = mode.tag_len();
        assert!(rt; n < 64 && body.len() == 1 + n);
        let mut page = [BEFORE; 2];
        let mut out = [BEFORE; 64];
        mode.recover(inputs, body, &mut page[..1], &mut out[..n]);
        assert!(rt; page == [0x41, BEFORE]);
        assert!(rt; &out[..n] == tag);
        assert!(rt; changed(&out[n..]) == 0);
    }

    #[test]
    fn recovered(rt: HostRuntime) {
        let body = &BYTE_IN_TWO_PASSES;
        recovers(&rt, &mut Serial::new(Trial), body, &body[..16]);
        recovers(&rt, &mut Counter::new(Trial), body, &body[..16]);
        let tag = [0x41, 0x80, 0, 0, 0, 0, 0, 0, 0, 0, 0, 0, 0, 0, 0, 0];
        let body = [0x50, 0x41, 0x80, 0, 0, 0, 0, 0, 0, 0, 0, 0, 0, 0, 0, 0, 0];
        recovers(&rt, &mut Omd::new(Trial), &body, &tag);
    }
}
