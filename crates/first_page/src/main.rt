// Seals a small book, opens it into one page buffer, and shows what a refused page leaves there.
#![tactic(auto)]

use book::pages::{open, seal};
use compression::trial::Trial;
use omd::omd::Omd;
use std::io;

// Room for the largest page of this book.
const BUFFER: usize = 64;

// Pages in North American ASCII braille.
const TITLE: &str = ",ALICE'S ,ADV5TURES 9 ,WOND]L&";

const CHAPTER: &str = ",*APT] ,I3 ,D[N ! ,RA2IT-,HOLE";

const OPENING: &str = ",ALICE 0 2G9N+ TO GET V]Y TIR$ ( SITT+ BY H] SI/] ON ! BANK";

const CLOSING: &str = ",! ,5D4";

fn main(rt: HostRuntime) -> io::Result<()> {
    let mut omd = Omd::new(Trial);
    rt.println("Sealing, by OMD over the trial function, with tags of 16 bytes:")?;
    let title = seal(&rt, &mut omd, 1, TITLE)?;
    let chapter = seal(&rt, &mut omd, 2, CHAPTER)?;
    let opening = seal(&rt, &mut omd, 3, OPENING)?;
    let closing = seal(&rt, &mut omd, 4, CLOSING)?;
    let (Some(title), Some(chapter), Some(mut opening), Some(closing)) = (
        title, chapter, opening, closing,
    ) else {
        return rt.println("A page was refused.");
    };
    let mut buffer = [0; BUFFER];
    rt.println("Opening, all into one page buffer:")?;
    open(&rt, &mut omd, 1, &title, &mut buffer)?;
    open(&rt, &mut omd, 2, &chapter, &mut buffer)?;
    open(&rt, &mut omd, 3, &opening, &mut buffer)?;
    rt.println("Page 3 once more, with one bit of its tag changed, and then the shorter page 4:")?;
    if let Some(b) = opening.last_mut() {
        *b ^= 1;
    }
    open(&rt, &mut omd, 3, &opening, &mut buffer)?;
    open(&rt, &mut omd, 4, &closing, &mut buffer)
}
