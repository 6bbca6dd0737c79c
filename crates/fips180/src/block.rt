// The compression on strings of bytes.
ghost use Rattle.std.specs.Prelude.{◌≡◌, ◌*◌, ◌++◌, ◌-◌, map, length};
ghost use Rattle.std.specs.List.{flat_map};
ghost use Rattle.base.specs.Bytes.{digits};
ghost use Rattle.fips180.specs.Compression.{words, schedule, half_fixed};

use crate::rounds::compress;
use crate::state::State;
use crate::word::Word;

// The eight words of half a block.
fn read_half<W: Word>(half: &[u8]) -> [W; 8]
    requires { length half.now ≡ W.sizes.bytes * 8 }
    ensures { map W.val result ≡ words W.sizes half.now }
{
    let n = W::BYTES;
    // Made of the first word, since not every word has a default; the loop writes all eight.
    let mut words = [W::read(&half[..n]); 8];
    // Cut by hand: of what is written in a `zip` of `iter_mut` and `chunks_exact` nothing is known.
    for (i, word) in words.iter_mut().enumerate() {
        *word = W::read(&half[n * i..n * (i + 1)]);
    }
    words
}

// Eight words, as half a block.
fn write_half<W: Word>(words: [W; 8], out: &mut [u8])
    requires { length out.old ≡ W.sizes.bytes * 8 }
    ensures { out.new ≡ flat_map (digits W.sizes.bytes) (map W.val words) }
{
    let n = W::BYTES;
    // By index: of what is written in a `zip` with `chunks_exact_mut` nothing is known.
    for (i, word) in words.iter().enumerate() {
        word.write(&mut out[n * i..n * (i + 1)]);
    }
}

// The compression of a block, handed in as two halves, into the chaining value h. `room` is for
// the schedule, which stands there afterwards: an array for it would need a constant number of
// rounds, and words that are known to be small.
// Kept: lengths by clauses, since a type for half a block would ask for the same where it is made.
#[tactic(auto, using(crate::proofs::Compressed::halves_words))]
pub fn compress_halves<W: Word>(room: &mut [W], h: &[u8], left: &[u8], right: &[u8], out: &mut [u8])
    requires room { length room.old ≡ W.sizes.rounds }
    requires h { length h.now ≡ W.sizes.bytes * 8 }
    requires left { length left.now ≡ W.sizes.bytes * 8 }
    requires right { length right.now ≡ W.sizes.bytes * 8 }
    requires out { length out.old ≡ W.sizes.bytes * 8 }
    ensures output { out.new ≡ half_fixed W.sizes left.now h.now right.now }
    ensures schedule { map W.val room.new ≡ schedule W.sizes (W.sizes.rounds - 16) (words W.sizes (left.now ++ right.now)) }
{
    let start = State::from(read_half(h));
    let end = compress(room, start, read_half(left), read_half(right));
    write_half(<[W; 8]>::from(end), out);
}
