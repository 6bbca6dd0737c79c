// Seals a page over SHA-256 and over SHA-512, opens it, and shows what a refused page leaves in the
// buffer. Then a page sealed for two machines.
#![tactic(auto)]

use address::address::Addressed;
use book::pages::{open, seal};
use compression::compression::Compression;
use compression::keyed::Keyed;
use keyed_sha2::sha256::Sha256;
use keyed_sha2::sha512::Sha512;
use omd::omd::Omd;
use std::io;
use two_pass::modes::Counter;

// Room for the page.
const BUFFER: usize = 64;

// A page in North American ASCII braille.
const TITLE: &str = ",ALICE'S ,ADV5TURES 9 ,WOND]L&";

const KEY: &[u8; 16] = b"sixteen byte key";

// The addresses of two machines.
const EAST: &[u8; 16] = b"embosser in east";

const WEST: &[u8; 16] = b"embosser in west";

// One page over a keyed function: sealed, opened, and refused with one bit of its text changed.
fn show_keyed<F: Keyed + Drop>(rt: &HostRuntime, name: &str) -> io::Result<()> {
    let mut f = F::new();
    if let Err(refusal) = f.set_key(KEY) {
        return println!(rt; "{refusal}");
    }
    let mut omd = Omd::new(f);
    println!(rt;
        "One page by OMD over {name}, under a key of 16 bytes, then with its first bit changed:"
    )?;
    let Some(mut body) = seal(rt, &mut omd, 1, TITLE)? else {
        return Ok(());
    };
    let mut buffer = [0; BUFFER];
    open(rt, &mut omd, 1, &body, &mut buffer)?;
    if let Some(b) = body.first_mut() {
        *b ^= 0x80;
    }
    open(rt, &mut omd, 1, &body, &mut buffer)
}

// A page that is sealed for each of two machines: the one that it is for opens it, the other one
// refuses it.
fn show_machines(rt: &HostRuntime) -> io::Result<()> {
    let mut east = Addressed::new(Counter::new(Sha256::new()), *EAST);
    let mut west = Addressed::new(Counter::new(Sha256::new()), *WEST);
    rt.println("One page by counter over SHA-256, for the machine in the east, then in the west:")?;
    let body = seal(rt, &mut east, 1, TITLE)?;
    let _ = seal(rt, &mut west, 1, TITLE)?;
    let Some(body) = body else {
        return Ok(());
    };
    rt.println("The first body, in the east, then in the west:")?;
    let mut buffer = [0; BUFFER];
    open(rt, &mut east, 1, &body, &mut buffer)?;
    open(rt, &mut west, 1, &body, &mut buffer)
}

fn main(rt: HostRuntime) -> io::Result<()> {
    show_keyed::<Sha256>(&rt, "SHA-256")?;
    show_keyed::<Sha512>(&rt, "SHA-512")?;
    show_machines(&rt)
}
