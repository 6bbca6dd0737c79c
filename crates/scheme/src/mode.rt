// What a mode gives, how any mode seals and opens under the limits, and how a lawful one is a scheme.
ghost use Rattle.std.specs.Prelude.{◌≡◌, ℕ, ◌+◌, ◌≤◌, List, length, ◌==◌, IfErr};
ghost use Rattle.scheme.specs.Meaning.{Lawful, mode};
ghost use Rattle.scheme.specs.Answers.{Opened, Sealed};
ghost use Rattle.scheme.specs.Recovery.{Recovered};
ghost use Rattle.scheme.specs.declared.limits.End.{End};

use crate::guard::open_into;
use crate::inputs::Inputs;
use crate::limits::{End, LONGEST_TAG, Limits, limits_of, may_open, may_seal};
use crate::scheme::Scheme;
use base::refusal::Refusal;

// The two ways of a mode, on inputs within the limits.
// Kept: the length of `page` is a clause of each. One way reads the page and the other writes it,
// so that it would be two types, each made in one place.
pub trait Mode {
    // The tag's length.
    ghost tag: { Self → ℕ };

    // The end that the tag stands at.
    ghost end: { End };

    // E(n, a, p).
    ghost E: { Self → List ℕ → List ℕ → List ℕ → List ℕ };

    fn tag_len(&self) -> usize
        ensures { result ≡ tag self.now };

    fn tag_end() -> End
        ensures { result ≡ end };

    // Seals `page` into `body`, which has just the room.
    fn encrypt(&mut self, inputs: Inputs, page: &[u8], body: &mut [u8])
        requires page { length page.now ≤ 4096 }
        requires body { length body.old ≡ length page.now + tag self.old }
        ensures kept { mode (tag self.new) end (E self.new) ≡ mode (tag self.old) end (E self.old) }
        ensures body { body.new ≡ E self.old inputs.entry.nonce.now inputs.entry.ad.now page.now };

    // Writes to `page` the only page that can have given `body`, and to the front of `out` that
    // page's tag. The page is genuine if the body has this tag.
    fn recover_block(
        &mut self,
        inputs: Inputs,
        body: &[u8],
        page: &mut [u8],
        out: &mut [u8; LONGEST_TAG],
    )
        requires page { length page.old ≤ 4096 }
        requires body { length body.now ≡ length page.old + tag self.old }
        ensures kept { mode (tag self.new) end (E self.new) ≡ mode (tag self.old) end (E self.old) }
        ensures recovered { Recovered (mode (tag self.old) end (E self.old)) inputs.entry.nonce.now inputs.entry.ad.now body.now page.new out.new };

    // The same, where `out` holds the tag and no more.
    fn recover(&mut self, inputs: Inputs, body: &[u8], page: &mut [u8], out: &mut [u8])
        requires page { length page.old ≤ 4096 }
        requires body { length body.now ≡ length page.old + tag self.old }
        requires out { length out.old ≡ tag self.old }
        ensures kept { mode (tag self.new) end (E self.new) ≡ mode (tag self.old) end (E self.old) }
        ensures recovered { Recovered (mode (tag self.old) end (E self.old)) inputs.entry.nonce.now inputs.entry.ad.now body.now page.new out.new }
    {
        let mut block = [0; LONGEST_TAG];
        self.recover_block(inputs, body, page, &mut block);
        out.copy_from_slice(&block[..out.len()]);
    }

    ghost tags: { (s : Self) → (4 ≤ tag s) × (tag s ≤ 64) };
}

// A mode whose bodies tell their pages.
pub trait LawfulMode: Mode {
    ghost lawful: { (s : Self) → Lawful (mode (Self.tag s) Self.end (Self.E s)) };
}

// Seals a page by a mode: sealing of any scheme that is a mode.
pub fn seal_by<M: Mode>(
    m: &mut M,
    nonce: &[u8],
    ad: &[u8],
    page: &[u8],
    out: &mut [u8],
) -> Result<usize, Refusal>
    ensures kept { mode (M.tag m.new) M.end (M.E m.new) ≡ mode (M.tag m.old) M.end (M.E m.old) }
    ensures layer { IfErr result (λ e. e.layer ≡ 1) }
    ensures sealed { Sealed (mode (M.tag m.old) M.end (M.E m.old)) nonce.now ad.now page.now out.old result out.new }
{
    let (inputs, n) = may_seal(m.tag_len(), nonce, ad, page, out.len())?;
    m.encrypt(inputs, page, &mut out[..n]);
    Ok(n)
}

// Opens a body by a mode: opening of any scheme that is a mode.
pub fn open_by<M: Mode>(
    m: &mut M,
    nonce: &[u8],
    ad: &[u8],
    body: &[u8],
    out: &mut [u8],
) -> Result<usize, Refusal>
    ensures kept { mode (M.tag m.new) M.end (M.E m.new) ≡ mode (M.tag m.old) M.end (M.E m.old) }
    ensures layer { IfErr result (λ e. e.layer ≡ 1) }
    ensures opened { Opened (mode (M.tag m.old) M.end (M.E m.old)) nonce.now ad.now body.now out.old result out.new }
{
    let (inputs, n) = may_open(m.tag_len(), nonce, ad, body, out.len())?;
    open_into(m, inputs, body, &mut out[..n])?;
    Ok(n)
}

// Each lawful mode is a scheme of layer 1.
impl<M: LawfulMode> Scheme for M {
    ghost meaning = { λ s. mode (M.tag s) M.end (M.E s) };

    ghost layers = { λ _ _ layer. (layer == 1) };

    ghost lawful = { λ s. M.lawful s };

    fn limits(&self) -> Limits {
        limits_of(self.tag_len())
    }

    fn tag<'a>(&self, body: &'a [u8]) -> Option<&'a [u8]> {
        M::tag_end().find_tag(body, self.tag_len())
    }

    fn open(
        &mut self,
        nonce: &[u8],
        ad: &[u8],
        body: &[u8],
        out: &mut [u8],
    ) -> Result<usize, Refusal> {
        open_by(self, nonce, ad, body, out)
    }

    fn seal(
        &mut self,
        nonce: &[u8],
        ad: &[u8],
        page: &[u8],
        out: &mut [u8],
    ) -> Result<usize, Refusal> {
        seal_by(self, nonce, ad, page, out)
    }
}
