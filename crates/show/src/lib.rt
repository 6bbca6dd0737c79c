// How programs show bytes, answers and calls.
// Read first: specs/Shown.antt, then specs/Lines.antt.
#![tactic(auto)]

ghost use Rattle.std.specs.Prelude.{◌≡◌, ◌<◌, map, IfOk, string_bytes};
ghost use Rattle.show.specs.Shown.{cell, digit, hex};

use std::alloc::{AllocError, Global};

pub mod answer;
pub mod case;
pub mod parts;

// The hexadecimal digit of a number below 16.
fn hex_digit(n: u8) -> char
    requires { n < 16 }
    ensures { (result ≡ digit n) × (result < 128) }
{
    char::from_digit(u32::from(n), 16).unwrap()
}

// Two hexadecimal digits for each byte. Not by `{:02x}`: that lays out a number with its width and
// its radix anew for each byte, and takes several times as long.
pub fn to_hex(heap: Global, bytes: &[u8]) -> Result<String, AllocError>
    ensures { IfOk result (λ s. string_bytes s ≡ hex bytes.now) }
{
    let mut s = String::new(heap);
    for b in bytes {
        s.push(hex_digit(b / 16))?;
        s.push(hex_digit(b % 16))?;
    }
    Ok(s)
}

// A braille cell as it is, and any other byte as `~`.
fn shown(b: u8) -> char
    ensures { (result ≡ cell b) × (result < 128) }
{
    match b {
        0x20..=0x5f => char::from(b),
        _ => '~',
    }
}

// Bytes as braille cells, and `~` for each byte that is none.
pub fn to_cells(heap: Global, bytes: &[u8]) -> Result<String, AllocError>
    ensures { IfOk result (λ s. string_bytes s ≡ map cell bytes.now) }
{
    // Kept: of a `collect` into a String the proof of its bytes was not found.
    let mut s = String::new(heap);
    for b in bytes {
        s.push(shown(*b))?;
    }
    Ok(s)
}

#[cfg(test)]
mod tests {
    use crate::parts::Compressed;
    use crate::{to_cells, to_hex};
    use compression::trial::Trial;
    use std::test::Fail;

    #[test]
    fn bytes_in_print(rt: HostRuntime) -> Result<(), Fail> {
        let heap = rt.alloc();
        assert_eq!(rt; to_hex(heap, &[0x05, 0xaf])?.as_str(), "05af");
        assert_eq!(rt; to_cells(heap, b",A~\x7f ")?.as_str(), ",A~~ ");
        Ok(())
    }

    #[test]
    fn a_compression_in_print(rt: HostRuntime) -> Result<(), Fail> {
        let heap = rt.alloc();
        let made = Compressed::from_zeros(heap, &mut Trial, 32, 32, 32)?;
        let said = format!(in heap; "{made}")?;
        assert_eq!(rt; said.as_str(), "compress 32 32 32: ok 32, changed 32");
        let refused = Compressed::from_zeros(heap, &mut Trial, 32, 31, 3)?;
        let said = format!(in heap; "{refused}")?;
        assert_eq!(rt; said.as_str(), "compress 32 31 3: no 12 0 31, changed 0");
        Ok(())
    }
}
