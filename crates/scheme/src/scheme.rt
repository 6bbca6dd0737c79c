// A scheme, by what it means.
ghost use Rattle.std.specs.Prelude.{◌≡◌, ℕ, ◌<◌, ◌≤◌, Bool, true, length, IfErr, MatchOption};
ghost use Rattle.base.specs.declared.refusal.Cause.{Cause};
ghost use Rattle.scheme.specs.Meaning.{Meaning, Lawful, tag_of};
ghost use Rattle.scheme.specs.Answers.{Sealed, Opened};

use crate::limits::Limits;
use base::refusal::Refusal;

// Kept: nonce and associated data stand apart here, since callers hand in what nobody has measured.
pub trait Scheme {
    // Limits, the tag's end and the map E, as one value.
    ghost meaning: { Self → Meaning };

    // Which layer a refusal names, by its cause.
    ghost layers: { Self → Cause → ℕ → Bool };

    fn limits(&self) -> Limits
        ensures { result ≡ (meaning self.now).limits };

    // The tag as a part of `body`, or none where the body is shorter than a tag.
    fn tag<'a>(&self, body: &'a [u8]) -> Option<&'a [u8]>
        ensures { MatchOption result (length body.now < (meaning self.now).limits.tag) (λ t. ((meaning self.now).limits.tag ≤ length body.now) × (t.now ≡ tag_of (meaning self.now) body.now)) };

    // Opens `body` into the front of `out`, and answers the page's length. After a yes the bytes
    // behind the page are as they were. After NotGenuine as many bytes as the page would have are
    // zero, and the rest is as it was. After any other refusal nothing has changed.
    fn open(
        &mut self,
        nonce: &[u8],
        ad: &[u8],
        body: &[u8],
        out: &mut [u8],
    ) -> Result<usize, Refusal>
        ensures kept { meaning self.new ≡ meaning self.old }
        ensures stays { layers self.new ≡ layers self.old }
        ensures layer { IfErr result (λ e. layers self.old e.cause e.layer ≡ true) }
        ensures opened { Opened (meaning self.old) nonce.now ad.now body.now out.old result out.new };

    // Seals `page` into the front of `out`, and answers the body's length. The bytes behind the
    // body are as they were, and after a refusal all of them.
    fn seal(
        &mut self,
        nonce: &[u8],
        ad: &[u8],
        page: &[u8],
        out: &mut [u8],
    ) -> Result<usize, Refusal>
        ensures kept { meaning self.new ≡ meaning self.old }
        ensures stays { layers self.new ≡ layers self.old }
        ensures layer { IfErr result (λ e. layers self.old e.cause e.layer ≡ true) }
        ensures sealed { Sealed (meaning self.old) nonce.now ad.now page.now out.old result out.new };

    // E(n, a, p) = E(n, a, q) only if p = q; the limits are in bounds; a body's length.
    ghost lawful: { (s : Self) → Lawful (meaning s) };
}
