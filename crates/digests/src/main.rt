// Digests of SHA-256 and SHA-512 for many lengths, made from the keyed compression alone: the first
// half of each block is set as the key. tools/digests.sh makes the expected output by other programs.
#![tactic(auto)]

use base::refusal::Refusal;
use compression::compression::Compression;
use compression::keyed::Keyed;
use keyed_sha2::sha256::Sha256;
use keyed_sha2::sha512::Sha512;
use show::to_hex;
use std::alloc::{AllocError, Global};
use std::io;

// The first chaining values.
static START_256: [u8; 32] = [
    0x6a, 0x09, 0xe6, 0x67, 0xbb, 0x67, 0xae, 0x85, 0x3c, 0x6e, 0xf3, 0x72, 0xa5, 0x4f, 0xf5, 0x3a,
    0x51, 0x0e, 0x52, 0x7f, 0x9b, 0x05, 0x68, 0x8c, 0x1f, 0x83, 0xd9, 0xab, 0x5b, 0xe0, 0xcd, 0x19,
];

static START_512: [u8; 64] = [
    0x6a, 0x09, 0xe6, 0x67, 0xf3, 0xbc, 0xc9, 0x08, 0xbb, 0x67, 0xae, 0x85, 0x84, 0xca, 0xa7, 0x3b,
    0x3c, 0x6e, 0xf3, 0x72, 0xfe, 0x94, 0xf8, 0x2b, 0xa5, 0x4f, 0xf5, 0x3a, 0x5f, 0x1d, 0x36, 0xf1,
    0x51, 0x0e, 0x52, 0x7f, 0xad, 0xe6, 0x82, 0xd1, 0x9b, 0x05, 0x68, 0x8c, 0x2b, 0x3e, 0x6c, 0x1f,
    0x1f, 0x83, 0xd9, 0xab, 0xfb, 0x41, 0xbd, 0x6b, 0x5b, 0xe0, 0xcd, 0x19, 0x13, 0x7e, 0x21, 0x79,
];

// A function that a digest is made of, and the first chaining value of the digest.
trait Hash: Keyed + Drop {
    fn start() -> &'static [u8];
}

impl Hash for Sha256 {
    fn start() -> &'static [u8] {
        &START_256
    }
}

impl Hash for Sha512 {
    fn start() -> &'static [u8] {
        &START_512
    }
}

// Each message is the front of this line, over and over.
const LINE: &[u8; 10] = b"yardolive\n";

const LONG: usize = 100_000;

fn message(heap: Global, n: usize) -> Result<Vec<u8>, AllocError> {
    LINE.iter().copied().cycle().take(n).collect(heap)
}

// The message, 80, zeros, and its length in bits as a number of two words: whole blocks.
fn padded<F: Compression>(heap: Global, message: &[u8]) -> Result<Vec<u8>, AllocError> {
    let bits = (message.len() as u64).wrapping_mul(8);
    let field = F::WIDTH / 4;
    let end = (message.len() + 1 + field).next_multiple_of(2 * F::WIDTH);
    let mut bytes = Vec::from_slice(heap, message)?;
    bytes.push(0x80)?;
    bytes.resize(end - 8, 0)?;
    bytes.extend_from_slice(&bits.to_be_bytes())?;
    Ok(bytes)
}

// One block: its first half is the key, its second half M.
fn absorb<F: Keyed>(f: &mut F, h: &[u8], block: &[u8], out: &mut [u8]) -> Result<(), Refusal> {
    let (key, m) = block.split_at(F::WIDTH.min(block.len()));
    f.set_key(key)?;
    f.compress(h, m, out)
}

// The digest in hexadecimal, or the refusal.
fn digest<F: Hash>(heap: Global, message: &[u8]) -> Result<String, AllocError> {
    let mut f = F::new();
    let mut h = Vec::from_slice(heap, F::start())?;
    let mut next = Vec::from_slice(heap, F::start())?;
    let text = padded::<F>(heap, message)?;
    for part in text.chunks(2 * F::WIDTH) {
        if let Err(refusal) = absorb(&mut f, &h, part, &mut next) {
            return format!(in heap; "{refusal}");
        }
        std::mem::swap(&mut h, &mut next);
    }
    to_hex(heap, &h)
}

fn show(rt: &HostRuntime, n: usize) -> io::Result<()> {
    let heap = rt.alloc();
    let text = message(heap, n)?;
    println!(rt; "{n} {}", digest::<Sha256>(heap, &text)?)?;
    println!(rt; "{n} {}", digest::<Sha512>(heap, &text)?)
}

fn main(rt: HostRuntime) -> io::Result<()> {
    for n in 0..301 {
        show(&rt, n)?;
    }
    show(&rt, LONG)
}

#[cfg(test)]
mod tests {
    use super::*;
    use std::test::Fail;

    // The worked examples of the standard.
    #[test]
    fn sha256_examples(rt: HostRuntime) -> Result<(), Fail> {
        let heap = rt.alloc();
        let one = digest::<Sha256>(heap, b"abc")?;
        assert_eq!(rt;
            one.as_str(),
            "ba7816bf8f01cfea414140de5dae2223b00361a396177a9cb410ff61f20015ad"
        );
        let two = digest::<Sha256>(
            heap,
            b"abcdbcdecdefdefgefghfghighijhijkijkljklmklmnlmnomnopnopq",
        )?;
        assert_eq!(rt;
            two.as_str(),
            "248d6a61d20638b8e5c026930c3e6039a33ce45964ff2167f6ecedd419db06c1"
        );
        Ok(())
    }

    #[test]
    fn sha512_examples(rt: HostRuntime) -> Result<(), Fail> {
        let heap = rt.alloc();
        let one = digest::<Sha512>(heap, b"abc")?;
        assert_eq!(rt;
            one.as_str(),
            "ddaf35a193617abacc417349ae20413112e6fa4e89a97ea20a9eeee64b55d39a2192992a274fc1a836ba3c23a3feebbd454d4423643ce80e2a9ac94fa54ca49f"
        );
        let two = digest::<Sha512>(
            heap,
            b"abcdefghbcdefghicdefghijdefghijkefghijklfghijklmghijklmnhijklmnoijklmnopjklmnopqklmnopqrlmnopqrsmnopqrstnopqrstu",
        )?;
        assert_eq!(rt;
            two.as_str(),
            "8e959b75dae313da8cf4f72814fc143f8f7779c6eb9f7fa17299aeadb6889018501d289e4900f7e4331b99dec4b5433ac7d329eeb6dd26545e96e55b874be909"
        );
        Ok(())
    }
}
