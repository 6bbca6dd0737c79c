// The guard over an opened page.
ghost use Rattle.std.specs.Prelude.{◌≡◌, ℕ, ◌+◌, ◌≤◌, List, length, if◌then◌else◌, MatchResult, ◌≢◌};
ghost use Rattle.base.specs.Bytes.{zeros};
ghost use Rattle.base.specs.declared.refusal.Cause.TheVariants.{NotGenuine};
ghost use Rattle.scheme.specs.Meaning.{mode};

use crate::inputs::Inputs;
use crate::limits::{Fault, LONGEST_TAG};
use crate::mode::Mode;
use base::refusal::Cause;
use base::slices::{agree, clear};

// An opened page whose tag has not agreed yet. When the guard ends, by whichever way out, the page
// is zeroed, unless the comparison of the tags released it.
// Kept: the flag. Of a guard that is forgotten no contract says what its page holds; and an
// `Option` of the page would be taken apart at each use.
struct Guard<'a> {
    page: &'a mut [u8],
    released: bool,
}

impl Drop for Guard<'_> {
    fn drop(self)
        ensures { self.exit.0.now ≡ (if self.entry.released then self.entry.page.now else zeros (length self.entry.page.now)) }
    {
        if !self.released {
            clear(self.page);
        }
        let Guard {
            page: _,
            released: _,
        } = self;
    }
}

// Opens `body` into `page`, which is zeroed unless the tags agree. Here alone a guard is made.
pub(crate) fn open_into<M: Mode>(
    m: &mut M,
    inputs: Inputs,
    body: &[u8],
    page: &mut [u8],
) -> Result<(), Fault>
    requires page { length page.old ≤ 4096 }
    requires body { length body.now ≡ length page.old + M.tag m.old }
    ensures kept { mode (M.tag m.new) M.end (M.E m.new) ≡ mode (M.tag m.old) M.end (M.E m.old) }
    ensures cases { MatchResult result (λ _. M.E m.old inputs.entry.nonce.now inputs.entry.ad.now page.new ≡ body.now) (λ e. (e.0 ≡ NotGenuine) × (e.1 ≡ 0) × (page.new ≡ zeros (length page.old)) × ((p : List ℕ) → M.E m.old inputs.entry.nonce.now inputs.entry.ad.now p ≢ body.now)) }
{
    let len = m.tag_len();
    let mut guard = Guard {
        page,
        released: false,
    };
    let mut tag = [0; LONGEST_TAG];
    m.recover_block(inputs, body, guard.page, &mut tag);
    guard.released = agree(&tag[..len], M::tag_end().tag_part(body, len));
    if !guard.released {
        return Err(Fault(Cause::NotGenuine, 0));
    }
    Ok(())
}
