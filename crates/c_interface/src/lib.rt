// Functions for callers in C, built by `rt lib` in this crate. A slice passes as a pointer and
// a length; the pointer must be good for that length, and the output must overlap no input.
// Each answers 0, or the number of the cause for which it refused.
// Read first: specs/Codes.antt, and `Keyed` in the crate compression.
#![tactic(auto)]

ghost use Rattle.std.specs.Prelude.{◌≡◌, length, is_ok, if◌then◌else◌, nat_eq};
ghost use Rattle.fips180.specs.Words.{sha256, sha512};
ghost use Rattle.keyed_sha2.specs.Keys.{keyed};
ghost use Rattle.c_interface.specs.Codes.{keyed_answer, code};

use base::refusal::Refusal;
use compression::compression::Compression;
use compression::keyed::Keyed;
use keyed_sha2::sha256::Sha256;
use keyed_sha2::sha512::Sha512;

// F(h, m) under a key, of a function made for this call.
fn compress_once<F: Keyed + Drop>(
    key: &[u8],
    h: &[u8],
    m: &[u8],
    out: &mut [u8],
) -> Result<(), Refusal>
    ensures answer { result ≡ keyed_answer F.WIDTH (length key.now) (length h.now) (length m.now) (length out.old) }
    ensures output { out.new ≡ (if is_ok result then F.under key.now h.now m.now else out.old) }
{
    let mut f = F::new();
    f.set_key(key)?;
    f.compress(h, m, out)
}

// 0, or the number of the cause. Kept: a number, for C.
fn code_of(answer: Result<(), Refusal>) -> u8
    ensures { result ≡ code answer }
{
    match answer {
        Ok(()) => 0,
        Err(e) => e.cause.number(),
    }
}

// SHA-256's F(h, m) under a key, to `out`.
// Kept: a function for each, since C calls them by name, and no function with a type parameter.
#[unsafe(no_mangle)]
pub extern "C" fn yardolive_sha256(key: &[u8], h: &[u8], m: &[u8], out: &mut [u8]) -> u8
    ensures answer { result ≡ code (keyed_answer 32 (length key.now) (length h.now) (length m.now) (length out.old)) }
    ensures output { out.new ≡ (if nat_eq result 0 then keyed sha256 key.now h.now m.now else out.old) }
{
    code_of(compress_once::<Sha256>(key, h, m, out))
}

// The same by SHA-512.
#[unsafe(no_mangle)]
pub extern "C" fn yardolive_sha512(key: &[u8], h: &[u8], m: &[u8], out: &mut [u8]) -> u8
    ensures answer { result ≡ code (keyed_answer 64 (length key.now) (length h.now) (length m.now) (length out.old)) }
    ensures output { out.new ≡ (if nat_eq result 0 then keyed sha512 key.now h.now m.now else out.old) }
{
    code_of(compress_once::<Sha512>(key, h, m, out))
}
