// Set-up of serial and counter, and both as modes.
ghost use Rattle.std.specs.Prelude.{◌≡◌, ◌≤◌, length, is_ok, if◌then◌else◌};
ghost use Rattle.compression.specs.Parts.{bytes_of};
ghost use Rattle.frames.specs.Directions.{page_of, cipher_of};
ghost use Rattle.frames.specs.Offsets.{Filled, star};
ghost use Rattle.scheme.specs.Answers.{tag_answer};
ghost use Rattle.scheme.specs.declared.limits.End.TheVariants.{Front};
ghost use Rattle.two_pass.specs.Means.{means, two_pass};
ghost use Rattle.two_pass.specs.TwoPass.{ad_sum, cipher, nonce_offset, sealed, tag_block};
ghost use Rattle.std.proofs.Common.{arith};
ghost use Rattle.two_pass.specs.Laws.{body_long, body_same, length-nonce};

use crate::keystream::Chaining;
use crate::modes::TwoPass;
use crate::parts::{begin, first_block, hash_page, sum_ad, tag_bits};
use base::refusal::Refusal;
use compression::compression::Compression;
use compression::part::Part;
use frames::offsets::OffsetTable;
use frames::pass::pass_all;
use frames::rule::{Direction, Rule};
use scheme::inputs::Inputs;
use scheme::limits::{End, LONGEST_TAG};
use scheme::mode::{LawfulMode, Mode};
use setup::setup::Setup;
use std::marker::PhantomData;

impl<F: Compression, K: Chaining> TwoPass<F, K> {
    // The mode over `f`, with a tag of 16 bytes.
    pub fn new(f: F) -> Self
        ensures { means F.WIDTH F.FEEDBACK F.value K.keystream result ≡ two_pass F.WIDTH F.FEEDBACK (F.value f) K.keystream 16 }
    {
        TwoPass {
            setup: Setup::new(f),
            keystream: PhantomData,
        }
    }

    // Sets the tag's length, or refuses one outside 4 to the width; the old one then stays.
    pub fn set_tag_len(&mut self, n: usize) -> Result<(), Refusal>
        ensures answer { result ≡ tag_answer F.WIDTH n }
        ensures means { means F.WIDTH F.FEEDBACK F.value K.keystream self.new ≡ (if is_ok result then two_pass F.WIDTH F.FEEDBACK (F.value self.old.setup.f) K.keystream n else means F.WIDTH F.FEEDBACK F.value K.keystream self.old) }
    {
        self.setup.set_tag_len(n)
    }

    // The table of offsets, whose L[0] is 8·L*, and D(0).
    fn prepare(&mut self, inputs: Inputs) -> (OffsetTable<F>, Part<F>)
        ensures kept { F.value self.new.setup.f ≡ F.value self.old.setup.f }
        ensures same { self.new.setup.tag_len ≡ self.old.setup.tag_len }
        ensures filled { Filled F.WIDTH F.FEEDBACK 3 (star F.WIDTH (F.value self.old.setup.f)) result.0 }
        ensures offset { bytes_of result.1 ≡ nonce_offset F.WIDTH F.FEEDBACK (F.value self.old.setup.f) inputs.entry.nonce.now }
    {
        let f = &mut self.setup.f;
        (OffsetTable::filled(f, 3), begin(f, inputs.nonce))
    }

    // The part whose first bytes are the tag.
    fn tag_block(
        &mut self,
        table: &OffsetTable<F>,
        d: Part<F>,
        inputs: Inputs,
        page: &[u8],
    ) -> Part<F>
        requires filled { Filled F.WIDTH F.FEEDBACK 3 (star F.WIDTH (F.value self.old.setup.f)) table.now }
        requires page { length page.now ≤ 4096 }
        ensures kept { F.value self.new.setup.f ≡ F.value self.old.setup.f }
        ensures same { self.new.setup.tag_len ≡ self.old.setup.tag_len }
        ensures tag { bytes_of result ≡ tag_block F.WIDTH F.FEEDBACK (F.value self.old.setup.f) (bytes_of d) (ad_sum F.WIDTH F.FEEDBACK (F.value self.old.setup.f) (bytes_of d) inputs.entry.ad.now) page.now }
    {
        let f = &mut self.setup.f;
        let sum = sum_ad(f, table, d, inputs.ad);
        hash_page(f, table, d, sum, page)
    }

    // The page in `src` to its ciphertext in `dst`, or back, where `v` is V.
    fn encipher(
        &mut self,
        table: &OffsetTable<F>,
        direction: Direction,
        d: Part<F>,
        v: Part<F>,
        src: &[u8],
        dst: &mut [u8],
    )
        requires filled { Filled F.WIDTH F.FEEDBACK 3 (star F.WIDTH (F.value self.old.setup.f)) table.now }
        requires src { length src.now ≤ 4096 }
        requires dst { length dst.old ≡ length src.now }
        ensures kept { F.value self.new.setup.f ≡ F.value self.old.setup.f }
        ensures same { self.new.setup.tag_len ≡ self.old.setup.tag_len }
        ensures cipher { cipher_of direction src.now dst.new ≡ cipher F.WIDTH F.FEEDBACK (F.value self.old.setup.f) (bytes_of d) K.keystream self.old.setup.tag_len (bytes_of v) (page_of direction src.now dst.new) }
    {
        let bits = tag_bits(self.setup.tag_len);
        let f = &mut self.setup.f;
        let start = first_block(f, table, d, v, bits);
        let rule = Rule {
            direction,
            feed: K::feed(v, bits),
        };
        pass_all(f, table, rule, start, src, dst);
    }
}

impl<F: Compression, K: Chaining> Mode for TwoPass<F, K> {
    ghost tag = { λ s. s.setup.tag_len };

    ghost end = { Front };

    ghost E = { λ s. sealed F.WIDTH F.FEEDBACK (F.value s.setup.f) K.keystream s.setup.tag_len };

    ghost tags = { λ s.
        let most = F.wide.1 in
        let low = s.setup.low in
        let high = s.setup.high in
        (low, omega arith) };

    fn tag_len(&self) -> usize {
        self.setup.tag_len
    }

    fn tag_end() -> End {
        End::Front
    }

    fn encrypt(&mut self, inputs: Inputs, page: &[u8], body: &mut [u8]) {
        let (tag, cipher) = body.split_at_mut(self.setup.tag_len);
        let (table, d) = self.prepare(inputs);
        self.tag_block(&table, d, inputs, page).write_front(tag);
        self.encipher(&table, Direction::Seal, d, Part::filled(tag), page, cipher);
    }

    fn recover_block(
        &mut self,
        inputs: Inputs,
        body: &[u8],
        page: &mut [u8],
        out: &mut [u8; LONGEST_TAG],
    ) {
        let (tag, cipher) = body.split_at(self.setup.tag_len);
        let (table, d) = self.prepare(inputs);
        self.encipher(&table, Direction::Open, d, Part::filled(tag), cipher, page);
        self.tag_block(&table, d, inputs, page)
            .write_front(&mut out[..tag.len()]);
    }
}

impl<F: Compression, K: Chaining> LawfulMode for TwoPass<F, K> {
    ghost lawful = { λ s.
        let m = F.Compression in
        let least = m.wide.0 in
        let most = m.wide.1 in
        let low = s.setup.low in
        let high = s.setup.high in
        let w = m.WIDTH in
        let V = m.value s.setup.f in
        let k = K.keystream in
        record {
          tag_low = omega arith;
          tag_high = omega arith;
          ad_high = omega arith;
          page_high = omega arith;
          longer = λ n a p t h. body_long w m.FEEDBACK (omega arith) V (m.sized s.setup.f) (nonce_offset w m.FEEDBACK V n) (length-nonce w m.FEEDBACK (omega arith) V (m.sized s.setup.f) n) k s.setup.tag_len (omega arith) a p;
          one_page = λ n a p q t h i e. body_same w m.FEEDBACK (omega arith) V (m.sized s.setup.f) (nonce_offset w m.FEEDBACK V n) (length-nonce w m.FEEDBACK (omega arith) V (m.sized s.setup.f) n) k s.setup.tag_len (omega arith) a p q e;
        } };
}
