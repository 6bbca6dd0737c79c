// Seals pages by OMD over the function Mixer, opens each body again, and prints the bodies.
// tools/omd.py, a second program written from docs/MODES.md, prints the same lines.
#![tactic(auto)]

use calls::inputs::{Inputs, row};
use mixer::Mixer;
use omd::omd::Omd;
use show::case::tell;
use std::alloc::{AllocError, Global};
use std::{fmt, io};

const PAGES: [usize; 11] = [0, 1, 47, 48, 49, 95, 96, 97, 143, 200, 480];

const ADS: [usize; 7] = [0, 1, 95, 96, 97, 192, 300];

const TAGS: [usize; 3] = [4, 47, 48];

// From the 64th block of a page on, its offsets take in the feedback number: 65 blocks.
const LONG_PAGE: usize = 3120;

// The lengths of one case, in bytes.
#[derive(Clone, Copy)]
struct Case {
    tag: usize,
    ad: usize,
    page: usize,
}

impl fmt::Display for Case {
    fn fmt<W: fmt::Write>(&self, f: &mut fmt::Formatter<W>) -> fmt::Result {
        write!(f, "tag {} ad {} page {}", self.tag, self.ad, self.page)
    }
}

// What is said of one case.
// Kept beside that of mode_cases, which chooses a mode and a function by what it reads.
fn told(heap: Global, nonce: &[u8], case: Case) -> Result<String, AllocError> {
    let mut omd = Omd::new(Mixer);
    if let Err(refusal) = omd.set_tag_len(case.tag) {
        return format!(in heap; "{refusal}");
    }
    let nonce = Vec::from_slice(heap, nonce)?;
    let inputs = Inputs::new(heap, nonce, case.ad, case.page)?;
    tell(heap, &mut omd, &inputs)
}

fn show(rt: &HostRuntime, nonce: &[u8], case: Case) -> io::Result<()> {
    let text = told(rt.alloc(), nonce, case)?;
    println!(rt; "{case}: {text}")
}

fn show_lengths(rt: &HostRuntime, nonce: &[u8]) -> io::Result<()> {
    for page in PAGES {
        for ad in ADS {
            show(rt, nonce, Case { tag: 16, ad, page })?;
        }
    }
    Ok(())
}

fn show_tags(rt: &HostRuntime, nonce: &[u8]) -> io::Result<()> {
    for tag in TAGS {
        show(
            rt,
            nonce,
            Case {
                tag,
                ad: 97,
                page: 97,
            },
        )?;
    }
    Ok(())
}

fn main(rt: HostRuntime) -> io::Result<()> {
    let nonce = row(rt.alloc(), 12, 0x10, 1)?;
    let long_nonce = row(rt.alloc(), 31, 0x01, 1)?;
    show_lengths(&rt, &nonce)?;
    show_tags(&rt, &nonce)?;
    show(
        &rt,
        &long_nonce,
        Case {
            tag: 16,
            ad: 97,
            page: 97,
        },
    )?;
    show(
        &rt,
        &nonce,
        Case {
            tag: 16,
            ad: 97,
            page: LONG_PAGE,
        },
    )
}
