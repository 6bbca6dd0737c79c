// The worked examples of FIPS 180-4 hold of the definitions, by computation, and so does the rule of
// the round constants, for both tables. Tests show the schedule of a block; the digests of the
// examples, through the public calls, are printed by the program `digests`.
#![tactic(auto)]

ghost use Rattle.fips180.specs.Words.{sha256, sha512};
ghost use Rattle.keyed_sha2_examples.specs.CubeRoots.{FollowsRule};
ghost use Rattle.keyed_sha2_examples.specs.Digests.{Examples};

// The definitions give the digests of the standard's examples.
pub fn examples_hold()
    ensures { Examples }
{}

// Each round constant is the first bits of the fractional part of the cube root of its prime.
pub fn tables_follow_rule()
    ensures { (FollowsRule sha256) × (FollowsRule sha512) }
{}

#[cfg(test)]
mod tests {
    use fips180::block::compress_halves;

    // The block of the message "abc": its words, its length in bits in the last of them. What is
    // expected behind the sixteenth was worked out by a program in Python.
    #[test]
    fn schedule_of_abc(rt: HostRuntime) {
        let mut room = [0u32; 64];
        let mut left = [0; 32];
        left[0..4].copy_from_slice(&[0x61, 0x62, 0x63, 0x80]);
        let mut right = [0; 32];
        right[31] = 24;
        compress_halves(&mut room, &[0; 32], &left, &right, &mut [0; 32]);
        assert_eq!(rt; room[0], 0x61626380);
        assert_eq!(rt; room[15], 24);
        assert_eq!(rt; room[16], 0x61626380);
        assert_eq!(rt; room[17], 0x000f0000);
        assert_eq!(rt; room[18], 0x7da86405);
        assert_eq!(rt; room[63], 0x12b1edeb);
    }

    #[test]
    fn longer_schedule_of_abc(rt: HostRuntime) {
        let mut room = [0u64; 80];
        let mut left = [0; 64];
        left[0..4].copy_from_slice(&[0x61, 0x62, 0x63, 0x80]);
        let mut right = [0; 64];
        right[63] = 24;
        compress_halves(&mut room, &[0; 64], &left, &right, &mut [0; 64]);
        assert_eq!(rt; room[0], 0x6162638000000000);
        assert_eq!(rt; room[15], 24);
        assert_eq!(rt; room[16], 0x6162638000000000);
        assert_eq!(rt; room[17], 0x00030000000000c0);
        assert_eq!(rt; room[18], 0x0a9699a24c700003);
        assert_eq!(rt; room[79], 0x92aeeed1a7bcf7d2);
    }
}
