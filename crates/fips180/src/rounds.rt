// The schedule and the rounds.
ghost use Rattle.std.specs.Prelude.{◌≡◌, ◌≤◌, ◌++◌, ◌-◌, map, length, take};
ghost use Rattle.fips180.specs.Compression.{word_at, schedule, round as turned, added, worked};
ghost use Rattle.fips180.specs.Values.{values};

use crate::bits::{ch, maj};
use crate::state::State;
use crate::word::Word;

#[tactic(auto, unfolding(crate::specs::Compression::round))]
fn round<W: Word>(s: State<W>, k: W, w: W) -> State<W>
    ensures { values W.val result ≡ turned W.sizes (values W.val s) (W.val k) (W.val w) }
{
    let t1 = s
        .h
        .plus(s.e.big_sigma1())
        .plus(ch(s.e, s.f, s.g))
        .plus(k)
        .plus(w);
    let t2 = s.a.big_sigma0().plus(maj(s.a, s.b, s.c));
    State {
        h: s.g,
        g: s.f,
        f: s.e,
        e: s.d.plus(t1),
        d: s.c,
        c: s.b,
        b: s.a,
        a: t1.plus(t2),
    }
}

// The word of the schedule at t, from those before it.
fn next_word<W: Word>(w: &[W], t: usize) -> W
    requires { (16 ≤ t) × (t ≤ length w.now) }
    ensures { W.val result ≡ word_at W.sizes (map W.val w.now) t }
{
    w[t - 2]
        .small_sigma1()
        .plus(w[t - 7])
        .plus(w[t - 15].small_sigma0())
        .plus(w[t - 16])
}

// The chaining value after a block, from the chaining value `start`. The sixteen words of the
// block stand in front of `w`, which is room for the schedule and holds it afterwards.
// A round and the word that is due sixteen rounds later are worked out in one turn: neither waits
// for the other, so that a processor does both at once.
fn run<W: Word>(start: State<W>, w: &mut [W]) -> State<W>
    requires { length w.old ≡ W.sizes.rounds }
    ensures value { values W.val result ≡ added W.sizes (worked W.sizes (values W.val start) (take 16 (map W.val w.old))) (values W.val start) }
    ensures schedule { map W.val w.new ≡ schedule W.sizes (W.sizes.rounds - 16) (take 16 (map W.val w.old)) }
{
    let constants = W::constants();
    let late = constants.len() - 16;
    let mut s = start;
    // Kept: `w` by an index, since a turn reads and writes it at several places.
    for (t, k) in constants[0..late].iter().enumerate() {
        s = round(s, *k, w[t]);
        w[t + 16] = next_word(w, t + 16);
    }
    for (k, x) in constants[late..].iter().zip(&w[late..]) {
        s = round(s, *k, *x);
    }
    s + start
}

// The same of a block that is handed in as two halves, from the chaining value `start`. `room` is
// for the schedule.
pub(crate) fn compress<W: Word>(
    room: &mut [W],
    start: State<W>,
    left: [W; 8],
    right: [W; 8],
) -> State<W>
    requires { length room.old ≡ W.sizes.rounds }
    ensures value { values W.val result ≡ added W.sizes (worked W.sizes (values W.val start) (map W.val left ++ map W.val right)) (values W.val start) }
    ensures schedule { map W.val room.new ≡ schedule W.sizes (W.sizes.rounds - 16) (map W.val left ++ map W.val right) }
{
    room[0..8].copy_from_slice(&left);
    room[8..16].copy_from_slice(&right);
    run(start, room)
}
