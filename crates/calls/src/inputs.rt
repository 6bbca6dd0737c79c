// Bytes to call with.
ghost use Rattle.std.specs.Prelude.{◌≡◌, ◌<◌, IfOk};
ghost use Rattle.calls.specs.Inputs.{row};

use std::alloc::{AllocError, Global};

// What is sealed.
#[derive(Drop)]
pub struct Inputs {
    pub nonce: Vec<u8>,
    pub ad: Vec<u8>,
    pub page: Vec<u8>,
}

// `n` bytes: the first is `start`, and each next one is larger by `step`, modulo 256.
pub fn row(heap: Global, n: usize, start: u8, step: u8) -> Result<Vec<u8>, AllocError>
    ensures { IfOk result (λ v. v.items ≡ row n start step) }
{
    // Kept a loop: a chain of successors would say no more plainly what the next byte is.
    let mut bytes = Vec::new(heap);
    let mut next = start;
    for _ in 0..n {
        bytes.push(next)?;
        next = next.wrapping_add(step);
    }
    Ok(bytes)
}

impl Inputs {
    // Associated data and a page of these lengths, under a nonce.
    pub fn new(heap: Global, nonce: Vec<u8>, ad: usize, page: usize) -> Result<Inputs, AllocError>
        ensures nonce { IfOk result (λ i. i.nonce.items ≡ nonce.items) }
        ensures ad { IfOk result (λ i. i.ad.items ≡ row ad 5 11) }
        ensures page { IfOk result (λ i. i.page.items ≡ row page 3 7) }
    {
        Ok(Inputs {
            nonce,
            ad: row(heap, ad, 5, 11)?,
            page: row(heap, page, 3, 7)?,
        })
    }
}

#[cfg(test)]
mod tests {
    use super::{Inputs, row};
    use std::test::Fail;

    #[test]
    fn a_row_wraps(rt: HostRuntime) -> Result<(), Fail> {
        let bytes = row(rt.alloc(), 4, 250, 5)?;
        assert_eq!(rt; bytes.as_slice(), [250, 255, 4, 9].as_slice());
        Ok(())
    }

    #[test]
    fn inputs_have_their_lengths(rt: HostRuntime) -> Result<(), Fail> {
        let heap = rt.alloc();
        let inputs = Inputs::new(heap, row(heap, 12, 16, 1)?, 2, 3)?;
        assert_eq!(rt; inputs.nonce.len(), 12);
        assert_eq!(rt; inputs.ad.as_slice(), [5, 16].as_slice());
        assert_eq!(rt; inputs.page.as_slice(), [3, 10, 17].as_slice());
        Ok(())
    }
}
