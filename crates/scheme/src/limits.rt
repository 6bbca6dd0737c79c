// What a scheme takes, in which order it refuses, and where the tag stands.
ghost use Rattle.std.specs.Prelude.{◌≡◌, ◌<◌, ◌≤◌, length, Some, MatchOption, MatchResult, OnOk};
ghost use Rattle.base.specs.Refusals.{refusal};
ghost use Rattle.scheme.specs.Meaning.{mode_limits, tag_part};
ghost use Rattle.scheme.specs.Answers.{open_fault, seal_fault, tag_answer};
ghost use Rattle.scheme.specs.Progress.{Holds, InputFault, InputFits, MayOpen, MaySeal};

use crate::inputs::Inputs;
use base::refusal::{Cause, Refusal};

// Shortest and longest nonce.
pub const NONCE_MIN: usize = 12;

pub const NONCE_MAX: usize = 31;

// The longest associated data and the longest page of any scheme. Every mode takes as much.
pub const LONGEST_AD: usize = 1024;

const LONGEST_PAGE: usize = 4096;

// The longest tag of any mode.
pub const LONGEST_TAG: usize = 64;

// The layer of the modes.
const LAYER: u8 = 1;

// The tag's length, the longest associated data and the longest page.
#[derive(Clone, Copy)]
pub struct Limits {
    pub tag: usize,
    pub ad: usize,
    pub page: usize,
}

// The end of a body that its tag stands at. Kept an enum: a mode names it as a value.
#[derive(Clone, Copy)]
pub enum End {
    Front,
    Back,
}

// The limits of a mode, by its tag's length.
pub fn limits_of(tag: usize) -> Limits
    ensures { result ≡ mode_limits tag }
{
    Limits {
        tag,
        ad: LONGEST_AD,
        page: LONGEST_PAGE,
    }
}

// Why a mode refuses, and a figure.
#[derive(Clone, Copy)]
pub(crate) struct Fault(pub Cause, pub usize);

impl From<Fault> for Refusal {
    ghost from_gives = { λ f e. e ≡ refusal f.0 1 f.1 };

    fn from(fault: Fault) -> Refusal {
        by_mode(fault.0, fault.1)
    }
}

// A refusal by a mode, which is layer 1.
pub fn by_mode(cause: Cause, figure: usize) -> Refusal
    ensures { result ≡ refusal cause 1 figure }
{
    Refusal {
        cause,
        layer: LAYER,
        figure,
    }
}

// A mode's tag has 4 bytes to its width.
pub fn check_tag_len(width: usize, n: usize) -> Result<(), Refusal>
    ensures answer { result ≡ tag_answer width n }
    ensures fits { OnOk result ((4 ≤ n) × (n ≤ width)) }
{
    if n < 4 || n > width {
        return Err(Fault(Cause::TagLength, n).into());
    }
    Ok(())
}

// The faults that sealing and opening share.
fn check_inputs<'a>(limits: Limits, nonce: &'a [u8], ad: &'a [u8]) -> Result<Inputs<'a>, Fault>
    requires { limits.ad ≤ 1024 }
    ensures { MatchResult result (λ i. Holds i nonce.now ad.now × InputFits limits nonce.now ad.now) (λ e. InputFault limits nonce.now ad.now (e.0, e.1)) }
{
    if ad.len() > limits.ad {
        return Err(Fault(Cause::AdTooLong, ad.len()));
    }
    if nonce.len() < NONCE_MIN || nonce.len() > NONCE_MAX {
        return Err(Fault(Cause::NonceLength, nonce.len()));
    }
    Ok(Inputs { nonce, ad })
}

// The inputs and the length of the body of a page that may be sealed into `room` bytes, by a mode
// whose tag has `tag` bytes.
// Kept a number with a clause, here and below: what bounds a tag's length stands in the crates above.
pub(crate) fn may_seal<'a>(
    tag: usize,
    nonce: &'a [u8],
    ad: &'a [u8],
    page: &[u8],
    room: usize,
) -> Result<(Inputs<'a>, usize), Fault>
    requires { tag ≤ 64 }
    ensures { MatchResult result (λ r. Holds r.0 nonce.now ad.now × MaySeal (mode_limits tag) nonce.now ad.now page.now room r.1) (λ e. seal_fault (mode_limits tag) nonce.now ad.now page.now room ≡ Some (e.0, e.1)) }
{
    let limits = limits_of(tag);
    let inputs = check_inputs(limits, nonce, ad)?;
    if page.len() > limits.page {
        return Err(Fault(Cause::PageTooLong, page.len()));
    }
    let needed = page.len() + limits.tag;
    if room < needed {
        return Err(Fault(Cause::OutputTooShort, needed));
    }
    Ok((inputs, needed))
}

// The inputs and the length of the page in a body that may be opened into `room` bytes, by a mode
// whose tag has `tag` bytes.
pub(crate) fn may_open<'a>(
    tag: usize,
    nonce: &'a [u8],
    ad: &'a [u8],
    body: &[u8],
    room: usize,
) -> Result<(Inputs<'a>, usize), Fault>
    requires { tag ≤ 64 }
    ensures { MatchResult result (λ r. Holds r.0 nonce.now ad.now × MayOpen (mode_limits tag) nonce.now ad.now body.now room r.1) (λ e. open_fault (mode_limits tag) nonce.now ad.now body.now room ≡ Some (e.0, e.1)) }
{
    let limits = limits_of(tag);
    let inputs = check_inputs(limits, nonce, ad)?;
    if body.len() < limits.tag {
        return Err(Fault(Cause::BodyTooShort, body.len()));
    }
    if body.len() > limits.page + limits.tag {
        return Err(Fault(Cause::PageTooLong, body.len()));
    }
    let needed = body.len() - limits.tag;
    if room < needed {
        return Err(Fault(Cause::OutputTooShort, needed));
    }
    Ok((inputs, needed))
}

impl End {
    // The tag of a body that is not shorter than a tag.
    pub(crate) fn tag_part(self, body: &[u8], tag: usize) -> &[u8]
        requires { tag ≤ length body.now }
        ensures part { result.now ≡ tag_part self tag body.now }
        ensures long { length result.now ≡ tag }
    {
        match self {
            End::Front => &body[..tag],
            End::Back => &body[body.len() - tag..],
        }
    }

    // The tag of a body, or none where it is shorter than a tag.
    pub fn find_tag(self, body: &[u8], tag: usize) -> Option<&[u8]>
        ensures { MatchOption result (length body.now < tag) (λ t. (tag ≤ length body.now) × (t.now ≡ tag_part self tag body.now)) }
    {
        if body.len() < tag {
            return None;
        }
        Some(self.tag_part(body, tag))
    }
}
