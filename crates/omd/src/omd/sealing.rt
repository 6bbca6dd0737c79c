// Set-up of OMD, and OMD as a mode.
ghost use Rattle.std.specs.Prelude.{◌≡◌, ◌≤◌, length, is_ok, if◌then◌else◌};
ghost use Rattle.base.specs.Bytes.{xor};
ghost use Rattle.compression.specs.Parts.{bytes_of};
ghost use Rattle.frames.specs.Directions.{page_of, cipher_of};
ghost use Rattle.scheme.specs.Answers.{tag_answer};
ghost use Rattle.scheme.specs.declared.limits.End.TheVariants.{Back};
ghost use Rattle.omd.specs.Omd.{ad_tag, cipher, page_tag, sealed};
ghost use Rattle.omd.specs.Means.{means, omd};
ghost use Rattle.std.proofs.Common.{arith};
ghost use Rattle.omd.specs.Laws.{sealed_same, sealed_length};

use crate::omd::Omd;
use crate::parts::{begin, run_page, sum_ad};
use base::refusal::Refusal;
use compression::compression::Compression;
use compression::part::Part;
use frames::offsets::OffsetTable;
use frames::rule::Direction;
use scheme::inputs::Inputs;
use scheme::limits::{End, LONGEST_TAG};
use scheme::mode::{LawfulMode, Mode};
use setup::setup::Setup;

impl<F: Compression> Omd<F> {
    // OMD over `f`, with a tag of 16 bytes.
    pub fn new(f: F) -> Self
        ensures { means F.WIDTH F.FEEDBACK F.value result ≡ omd F.WIDTH F.FEEDBACK (F.value f) 16 }
    {
        Omd {
            setup: Setup::new(f),
        }
    }

    // Sets the tag's length, or refuses one outside 4 to the width; the old one then stays.
    pub fn set_tag_len(&mut self, n: usize) -> Result<(), Refusal>
        ensures answer { result ≡ tag_answer F.WIDTH n }
        ensures means { means F.WIDTH F.FEEDBACK F.value self.new ≡ (if is_ok result then omd F.WIDTH F.FEEDBACK (F.value self.old.setup.f) n else means F.WIDTH F.FEEDBACK F.value self.old) }
    {
        self.setup.set_tag_len(n)
    }

    // The page in `src` to its ciphertext in `dst`, or back; then the part whose first bytes are
    // the tag.
    fn run(&mut self, direction: Direction, inputs: Inputs, src: &[u8], dst: &mut [u8]) -> Part<F>
        requires src { length src.now ≤ 4096 }
        requires dst { length dst.old ≡ length src.now }
        ensures kept { F.value self.new.setup.f ≡ F.value self.old.setup.f }
        ensures same { self.new.setup.tag_len ≡ self.old.setup.tag_len }
        ensures cipher { cipher_of direction src.now dst.new ≡ cipher F.WIDTH F.FEEDBACK (F.value self.old.setup.f) self.old.setup.tag_len inputs.entry.nonce.now (page_of direction src.now dst.new) }
        ensures tag { bytes_of result ≡ xor (page_tag F.WIDTH F.FEEDBACK (F.value self.old.setup.f) self.old.setup.tag_len inputs.entry.nonce.now (page_of direction src.now dst.new)) (ad_tag F.WIDTH F.FEEDBACK (F.value self.old.setup.f) inputs.entry.ad.now) }
    {
        let tag_len = self.setup.tag_len;
        let f = &mut self.setup.f;
        // L[0] is 4·L*.
        let table = OffsetTable::filled(f, 2);
        let sum = sum_ad(f, &table, inputs.ad);
        let start = begin(f, &table, tag_len, inputs.nonce);
        run_page(f, &table, direction, start, src, dst) ^ sum
    }
}

impl<F: Compression> Mode for Omd<F> {
    ghost tag = { λ s. s.setup.tag_len };

    ghost end = { Back };

    ghost E = { λ s. sealed F.WIDTH F.FEEDBACK (F.value s.setup.f) s.setup.tag_len };

    ghost tags = { λ s.
        let most = F.wide.1 in
        let low = s.setup.low in
        let high = s.setup.high in
        (low, omega arith) };

    fn tag_len(&self) -> usize {
        self.setup.tag_len
    }

    fn tag_end() -> End {
        End::Back
    }

    fn encrypt(&mut self, inputs: Inputs, page: &[u8], body: &mut [u8]) {
        let (cipher, tag) = body.split_at_mut(page.len());
        self.run(Direction::Seal, inputs, page, cipher)
            .write_front(tag);
    }

    fn recover_block(
        &mut self,
        inputs: Inputs,
        body: &[u8],
        page: &mut [u8],
        out: &mut [u8; LONGEST_TAG],
    ) {
        let n = page.len();
        let tag_len = self.setup.tag_len;
        self.run(Direction::Open, inputs, &body[..n], page)
            .write_front(&mut out[..tag_len]);
    }
}

impl<F: Compression> LawfulMode for Omd<F> {
    ghost lawful = { λ s.
        let m = F.Compression in
        let least = m.wide.0 in
        let most = m.wide.1 in
        let low = s.setup.low in
        let high = s.setup.high in
        record {
          tag_low = omega arith;
          tag_high = omega arith;
          ad_high = omega arith;
          page_high = omega arith;
          longer = λ n a p t h. sealed_length m.WIDTH m.FEEDBACK (omega arith) (m.value s.setup.f) (m.sized s.setup.f) s.setup.tag_len (omega arith) n a p;
          one_page = λ n a p q t h i e. sealed_same m.WIDTH m.FEEDBACK (omega arith) (m.value s.setup.f) (m.sized s.setup.f) s.setup.tag_len (omega arith) n a p q e;
        } };
}
