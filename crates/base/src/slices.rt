// Bytes in place.
ghost use Rattle.std.specs.Prelude.{◌≡◌, ◌≤◌, ◌++◌, length, drop, Decides, nat_le, slice_index};
ghost use Rattle.base.specs.Bytes.{xor, zeros, digits, filled, padded, shifted, double};

// Zeroes all of `text`.
pub fn clear(text: &mut [u8])
    ensures { text.new ≡ zeros (length text.old) }
{
    text.fill(0);
}

// Whether two parts are the same bytes. It looks at every byte, and does not stop at a difference,
// as `==` would.
pub fn agree(a: &[u8], b: &[u8]) -> bool
    ensures { Decides result (a.now ≡ b.now) }
{
    if a.len() != b.len() {
        return false;
    }
    let mut differing = 0u8;
    // By index: of a `zip` and a `fold` no wrong start can be told from a right one, since neither
    // is proved where the iterator skips.
    for i in 0..a.len() {
        differing |= a[i] ^ b[i];
    }
    differing == 0
}

// XORs `src` into the front of `dst`, as far as both reach.
pub fn xor_into(dst: &mut [u8], src: &[u8])
    ensures front { dst.new ≡ xor dst.old src.now ++ drop (length src.now) dst.old }
    ensures whole { length dst.old ≤ length src.now → dst.new ≡ xor dst.old src.now }
{
    let n = dst.len().min(src.len());
    // By index: of what is written in a `zip` over `iter_mut` nothing is known after the loop, and
    // `enumerate` would index all the same.
    for i in 0..n {
        dst[i] ^= src[i];
    }
}

// Moves all bits one place to the left.
pub fn shift_left(x: &mut [u8])
    ensures { x.new ≡ shifted x.old }
{
    // By index: each byte takes a bit from the next one, which `iter_mut` does not show.
    for i in 0..x.len() {
        let carry = if i + 1 < x.len() { x[i + 1] / 128 } else { 0 };
        x[i] = x[i] % 128 * 2 + carry;
    }
}

// The longest string of bytes that is doubled.
const LONGEST: usize = 64;

// 2·x in the field with this feedback number, at every length up to 64.
pub fn double_into(x: &mut [u8], feedback: u16)
    requires { length x.old ≤ 64 }
    ensures { x.new ≡ double feedback x.old }
{
    let top = top_bit(x);
    shift_left(x);
    if top {
        let mut room = [0; LONGEST];
        let number = &mut room[..x.len()];
        number_into(number, usize::from(feedback));
        xor_into(x, number);
    }
}

// Whether the top bit is 1.
fn top_bit(x: &[u8]) -> bool
    ensures { result ≡ nat_le 128 (slice_index x.now 0) }
{
    !x.is_empty() && x[0] >= 128
}

// `part` filled to the length of `out` by zeros.
pub fn fill_into(out: &mut [u8], part: &[u8])
    requires { length part.now ≤ length out.old }
    ensures { out.new ≡ filled (length out.old) part.now }
{
    clear(out);
    out[0..part.len()].copy_from_slice(part);
}

// `part` filled to the length of `out` by 80 and zeros; a part of that length stays as it is.
pub fn pad_into(out: &mut [u8], part: &[u8])
    requires { length part.now ≤ length out.old }
    ensures { out.new ≡ padded (length out.old) part.now }
{
    let n = part.len();
    fill_into(out, part);
    if n < out.len() {
        out[n] = 0x80;
    }
}

// `t` as a number that fills `out`.
pub fn number_into(out: &mut [u8], t: usize)
    ensures { out.new ≡ digits (length out.old) t }
{
    let mut rest = t;
    // By index: of what is written through `iter_mut().rev()` nothing is known after the loop, and
    // `to_be_bytes` has eight bytes, however long `out` is.
    for i in (0..out.len()).rev() {
        out[i] = (rest % 256) as u8;
        rest /= 256;
    }
}
