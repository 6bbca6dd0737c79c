// Reads cases by their lengths, one a line, seals each, opens the body again, and prints the body.
// tools/modes.py, a second program written from docs/MODES.md alone, prints the same lines.
#![tactic(auto)]

use base::refusal::Refusal;
use calls::inputs::{Inputs, row};
use compression::compression::Compression;
use compression::keyed::Keyed;
use compression::trial::Trial;
use keyed_sha2::sha256::Sha256;
use keyed_sha2::sha512::Sha512;
use mixer::Mixer;
use omd::omd::Omd;
use scheme::scheme::Scheme;
use show::case::tell;
use std::alloc::{AllocError, Global};
use std::io;
use std::str::FromStr;
use two_pass::modes::{Counter, Serial};

// Kept enums, this one and the next: each choice is of a type, by what a line says.
#[derive(Clone, Copy)]
enum Mode {
    Omd,
    Serial,
    Counter,
}

#[derive(Clone, Copy)]
enum Function {
    Trial,
    Mixer,
    Sha256,
    Sha512,
}

// A word that names no mode, or no function.
#[derive(Clone, Copy)]
struct UnknownWord;

// One case: what seals, and the lengths in bytes. With no key the function keeps the one it has.
#[derive(Clone, Copy)]
struct Case {
    mode: Mode,
    function: Function,
    tag: usize,
    key: Option<usize>,
    nonce: usize,
    ad: usize,
    page: usize,
}

impl FromStr for Mode {
    type Err = UnknownWord;

    fn from_str(word: &str) -> Result<Self, UnknownWord> {
        match word {
            "omd" => Ok(Self::Omd),
            "serial" => Ok(Self::Serial),
            "counter" => Ok(Self::Counter),
            _ => Err(UnknownWord),
        }
    }
}

impl FromStr for Function {
    type Err = UnknownWord;

    fn from_str(word: &str) -> Result<Self, UnknownWord> {
        match word {
            "trial" => Ok(Self::Trial),
            "mixer" => Ok(Self::Mixer),
            "sha256" => Ok(Self::Sha256),
            "sha512" => Ok(Self::Sha512),
            _ => Err(UnknownWord),
        }
    }
}

impl Case {
    // A line: mode, function, and the lengths of tag, key, nonce, associated data and page. A key of
    // no bytes stands for none.
    fn parse(line: &str) -> Option<Self> {
        let mut words = line.split(' ');
        Some(Case {
            mode: words.next()?.parse().ok()?,
            function: words.next()?.parse().ok()?,
            tag: words.next()?.parse().ok()?,
            key: words.next()?.parse().ok().map(|n| (n > 0).then_some(n))?,
            nonce: words.next()?.parse().ok()?,
            ad: words.next()?.parse().ok()?,
            page: words.next()?.parse().ok()?,
        })
    }

    // What is said of the case.
    fn tell(self, heap: Global) -> Result<String, AllocError> {
        match self.function {
            Function::Trial => self.tell_over(heap, Trial),
            Function::Mixer => self.tell_over(heap, Mixer),
            Function::Sha256 => self.tell_keyed::<Sha256>(heap),
            Function::Sha512 => self.tell_keyed::<Sha512>(heap),
        }
    }

    fn tell_keyed<F: Keyed + Drop>(self, heap: Global) -> Result<String, AllocError> {
        let mut f = F::new();
        if let Some(len) = self.key {
            let key = row(heap, len, 7, 13)?;
            if let Err(refusal) = f.set_key(&key) {
                return format!(in heap; "{refusal}");
            }
        }
        self.tell_over(heap, f)
    }

    fn tell_over<F: Compression + Drop>(self, heap: Global, f: F) -> Result<String, AllocError> {
        // Kept three arms: each makes a type of its own, and the two that set a tag's length have no
        // trait in common.
        match self.mode {
            Mode::Omd => self.tell_by(heap, Omd::new(f), |omd, n| omd.set_tag_len(n)),
            Mode::Serial => self.tell_by(heap, Serial::new(f), |serial, n| serial.set_tag_len(n)),
            Mode::Counter => self.tell_by(heap, Counter::new(f), |counter, n| {
                counter.set_tag_len(n)
            }),
        }
    }

    fn tell_by<S: Scheme + Drop, T>(
        self,
        heap: Global,
        mut scheme: S,
        set_tag_len: T,
    ) -> Result<String, AllocError>
    where
        T: FnOnce(&mut S, usize) -> Result<(), Refusal>,
        requires { T.IsAlwaysCallable set_tag_len }
    {
        let nonce = row(heap, self.nonce, 16, 1)?;
        let inputs = Inputs::new(heap, nonce, self.ad, self.page)?;
        if let Err(refusal) = set_tag_len(&mut scheme, self.tag) {
            return format!(in heap; "{refusal}");
        }
        tell(heap, &mut scheme, &inputs)
    }
}

fn main(rt: HostRuntime) -> io::Result<()> {
    for line in rt.lines(rt.alloc()) {
        let line = line?;
        if let Some(case) = Case::parse(&line) {
            println!(rt; "{line}: {}", case.tell(rt.alloc())?)?;
        }
    }
    Ok(())
}
