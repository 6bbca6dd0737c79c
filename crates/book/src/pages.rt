// Pages of a small book: sealed and printed, opened and printed.
ghost use Rattle.std.specs.Prelude.{◌≡◌, ℕ, [], IfOk, Result};
ghost use Rattle.base.specs.declared.refusal.Refusal.{Refusal};
ghost use Rattle.scheme.specs.Answers.{Opened, seal_fault};
ghost use Rattle.book.specs.Pages.{Handed, page_nonce};

use scheme::scheme::Scheme;
use show::answer::Answer;
use show::{to_cells, to_hex};
use std::io;

// Room for a page's body.
const ROOM: usize = 80;

// The nonce of a page: the book's job number, and the page's.
pub fn nonce(page: u8) -> [u8; 12]
    ensures { result ≡ page_nonce page }
{
    [0, 0, 0, 0, 0, 0, 0, 5, 0, 0, 0, page]
}

// Seals a page, prints nonce, page and body, and answers the body, or none for a refusal.
pub fn seal<S: Scheme>(
    rt: &HostRuntime,
    scheme: &mut S,
    number: u8,
    page: &str,
) -> io::Result<Option<Vec<u8>>>
    ensures kept { S.meaning scheme.new ≡ S.meaning scheme.old }
    ensures stays { S.layers scheme.new ≡ S.layers scheme.old }
    ensures body { IfOk result (λ b. Handed (S.meaning scheme.old) (page_nonce number) [] page.now b (seal_fault (S.meaning scheme.old).limits (page_nonce number) [] page.now 80)) }
{
    let heap = rt.alloc();
    let nonce = nonce(number);
    let mut room = [0; ROOM];
    println!(rt; "page {number}  {page}")?;
    match scheme.seal(&nonce, &[], page.as_bytes(), &mut room) {
        Ok(n) => {
            let body = Vec::from_slice(heap, &room[..n])?;
            println!(rt; "  nonce {}", to_hex(heap, &nonce)?)?;
            println!(rt; "  body  {}", to_hex(heap, &body)?)?;
            Ok(Some(body))
        }
        Err(refusal) => {
            println!(rt; "  {refusal}")?;
            Ok(None)
        }
    }
}

// Opens a body into the page buffer, and prints the answer and the whole buffer.
pub fn open<S: Scheme>(
    rt: &HostRuntime,
    scheme: &mut S,
    number: u8,
    body: &[u8],
    buffer: &mut [u8],
) -> io::Result<()>
    ensures kept { S.meaning scheme.new ≡ S.meaning scheme.old }
    ensures stays { S.layers scheme.new ≡ S.layers scheme.old }
    ensures opened { (r : Result ℕ Refusal) × Opened (S.meaning scheme.old) (page_nonce number) [] body.now buffer.old r buffer.new }
{
    let answer = Answer(scheme.open(&nonce(number), &[], body, buffer));
    println!(rt; "page {number}  {answer}")?;
    println!(rt; "  buffer |{}|", to_cells(rt.alloc(), buffer)?)
}
