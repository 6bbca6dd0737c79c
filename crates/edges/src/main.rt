// Calls at the edges of the limits: each line shows a call by its lengths, its answer, and how many
// bytes of the output it changed.
#![tactic(auto)]

use base::refusal::Refusal;
use calls::outputs::{BEFORE, changed};
use compression::trial::Trial;
use omd::omd::Omd;
use scheme::scheme::Scheme;
use show::answer::Answer;
use show::parts::Compressed;
use std::io;

// The lengths of a call: `input` is the page's or the body's, `room` the output's.
#[derive(Clone, Copy)]
struct Call {
    nonce: usize,
    ad: usize,
    input: usize,
    room: usize,
}

impl Call {
    const fn new(nonce: usize, ad: usize, input: usize, room: usize) -> Self {
        Call {
            nonce,
            ad,
            input,
            room,
        }
    }
}

// Makes calls on zero bytes by `run`, each on a new scheme, and shows them.
fn show_calls<F>(rt: &HostRuntime, name: &str, calls: &[Call], run: F) -> io::Result<()>
where
    F: Fn(&mut Omd<Trial>, &[u8], &[u8], &[u8], &mut [u8]) -> Result<usize, Refusal>,
    requires { F.IsAlwaysCallable run }
{
    let heap = rt.alloc();
    for call in calls {
        let Call {
            nonce,
            ad,
            input,
            room,
        } = *call;
        let mut out = vec![in heap; BEFORE; room]?;
        let answer = Answer(run(
            &mut Omd::new(Trial),
            &vec![in heap; 0; nonce]?,
            &vec![in heap; 0; ad]?,
            &vec![in heap; 0; input]?,
            &mut out,
        ));
        let n = changed(&out);
        println!(rt;
            "{name} nonce {nonce} ad {ad} input {input} room {room}: {answer}, changed {n}"
        )?;
    }
    Ok(())
}

// Sets the tag's length, and shows the answer.
fn show_tag(rt: &HostRuntime, n: usize) -> io::Result<()> {
    let mut omd = Omd::new(Trial);
    let answer = omd.set_tag_len(n);
    let answer = Answer(answer.map(|()| omd.limits().tag));
    println!(rt; "tag {n}: {answer}")
}

// Compresses zero bytes, and shows the answer.
// Kept here and in key_edges: two lines, of which the crate `show` has what is said.
fn show_parts(rt: &HostRuntime, h: usize, m: usize, out: usize) -> io::Result<()> {
    let line = Compressed::from_zeros(rt.alloc(), &mut Trial, h, m, out)?;
    println!(rt; "{line}")
}

fn show_sealing(rt: &HostRuntime) -> io::Result<()> {
    let calls = [
        Call::new(12, 0, 0, 16),
        Call::new(11, 0, 0, 16),
        Call::new(31, 1024, 4096, 4112),
        Call::new(32, 0, 0, 16),
        Call::new(12, 1025, 0, 16),
        Call::new(11, 1025, 4097, 0),
        Call::new(32, 0, 4097, 0),
        Call::new(12, 0, 4097, 0),
        Call::new(12, 0, 4096, 4111),
        Call::new(12, 0, 0, 0),
    ];
    show_calls(rt, "seal", &calls, |omd, nonce, ad, page, out| {
        omd.seal(nonce, ad, page, out)
    })
}

fn show_opening(rt: &HostRuntime) -> io::Result<()> {
    let calls = [
        Call::new(12, 0, 16, 0),
        Call::new(12, 0, 17, 1),
        Call::new(12, 0, 40, 30),
        Call::new(12, 1024, 4112, 4096),
        Call::new(11, 1025, 15, 0),
        Call::new(11, 0, 15, 0),
        Call::new(12, 0, 15, 0),
        Call::new(12, 0, 0, 30),
        Call::new(12, 0, 4113, 0),
        Call::new(12, 0, 4112, 4095),
        Call::new(12, 0, 17, 0),
    ];
    show_calls(rt, "open", &calls, |omd, nonce, ad, body, out| {
        omd.open(nonce, ad, body, out)
    })
}

fn main(rt: HostRuntime) -> io::Result<()> {
    for n in [0, 3, 4, 32, 33, 5000] {
        show_tag(&rt, n)?;
    }
    show_sealing(&rt)?;
    show_opening(&rt)?;
    show_parts(&rt, 32, 32, 32)?;
    show_parts(&rt, 31, 33, 0)?;
    show_parts(&rt, 32, 33, 0)?;
    show_parts(&rt, 32, 32, 0)?;
    show_parts(&rt, 32, 32, 33)
}
