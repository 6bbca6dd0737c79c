// Keys at the edges of their lengths, and parts that have not the width of SHA-256 or SHA-512: each
// line shows a call by its lengths and its answer.
#![tactic(auto)]

use compression::compression::Compression;
use compression::keyed::Keyed;
use keyed_sha2::sha256::Sha256;
use keyed_sha2::sha512::Sha512;
use show::answer::Answer;
use show::parts::Compressed;
use std::alloc::{AllocError, Global};
use std::io;

// Compresses zero bytes, and shows the answer.
// Kept here and in edges: two lines, of which the crate `show` has what is said.
fn show_parts<F: Compression + Drop>(
    rt: &HostRuntime,
    mut f: F,
    h: usize,
    m: usize,
    out: usize,
) -> io::Result<()> {
    let line = Compressed::from_zeros(rt.alloc(), &mut f, h, m, out)?;
    println!(rt; "{line}")
}

// F(zeros, zeros), which tells one key from another.
fn sample<F: Compression>(heap: Global, f: &mut F) -> Result<Vec<u8>, AllocError> {
    let zeros = vec![in heap; 0u8; F::WIDTH]?;
    let mut out = vec![in heap; 0u8; F::WIDTH]?;
    // Kept: the answer is let go, since parts of the width are never refused.
    let _ = f.compress(&zeros, &zeros, &mut out);
    Ok(out)
}

// Sets a key of n bytes, all `byte`, and shows the answer and whether F(zeros, zeros) is another.
fn show_key<F: Keyed + Drop>(rt: &HostRuntime, name: &str, n: usize, byte: u8) -> io::Result<()> {
    let heap = rt.alloc();
    let key = vec![in heap; byte; n]?;
    let mut f = F::new();
    let before = sample(heap, &mut f)?;
    let answer = Answer(f.set_key(&key).map(|()| n));
    let after = sample(heap, &mut f)?;
    let told = if before == after { "same" } else { "other" };
    println!(rt; "{name} key {n} of {byte}: {answer}, {told} function")
}

fn show_compression(rt: &HostRuntime) -> io::Result<()> {
    show_parts(rt, Sha256::new(), 32, 32, 31)?;
    show_parts(rt, Sha512::new(), 32, 64, 64)?;
    show_parts(rt, Sha512::new(), 64, 65, 63)
}

fn show_keys(rt: &HostRuntime) -> io::Result<()> {
    for n in [0, 9, 10, 32, 33, 64] {
        show_key::<Sha256>(rt, "sha256", n, 1)?;
    }
    for n in [0, 9, 10, 32, 33, 64, 65] {
        show_key::<Sha512>(rt, "sha512", n, 1)?;
    }
    show_key::<Sha256>(rt, "sha256", 10, 0)?;
    show_key::<Sha512>(rt, "sha512", 64, 0)
}

fn main(rt: HostRuntime) -> io::Result<()> {
    show_compression(&rt)?;
    show_keys(&rt)
}
