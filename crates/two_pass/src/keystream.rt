// The keystreams of the two modes.
ghost use Rattle.std.specs.Prelude.{◌≡◌};
ghost use Rattle.two_pass.specs.declared.keystream.Keystream.{Keystream};
ghost use Rattle.two_pass.specs.declared.keystream.Keystream.TheVariants.{Serial, Counter};
ghost use Rattle.two_pass.specs.Feeds.{feed_of};

use compression::compression::Compression;
use compression::part::Part;
use frames::rule::Feed;

// Kept beside the two markers below: definitions speak of it, and a type cannot stand there.
// In serial each block comes from the one before and the page, in counter from its index alone.
#[derive(Clone, Copy)]
pub enum Keystream {
    Serial,
    Counter,
}

// Which of the two keystreams a mode has.
pub trait Chaining {
    ghost keystream: { Keystream };

    // What feeds the blocks behind the first, where V and ⟨8τ⟩ made the first.
    fn feed<F: Compression>(v: Part<F>, bits: Part<F>) -> Feed<F>
        ensures { result ≡ feed_of keystream v bits };
}

#[derive(Clone, Copy)]
pub struct Chained;

#[derive(Clone, Copy)]
pub struct Counted;

impl Chaining for Chained {
    ghost keystream = { Serial };

    fn feed<F: Compression>(_v: Part<F>, _bits: Part<F>) -> Feed<F> {
        Feed::Page
    }
}

impl Chaining for Counted {
    ghost keystream = { Counter };

    fn feed<F: Compression>(v: Part<F>, bits: Part<F>) -> Feed<F> {
        Feed::Fixed(v, bits)
    }
}
