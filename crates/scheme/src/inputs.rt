// A nonce and associated data, neither longer than a mode takes.
ghost use Rattle.std.specs.Prelude.{◌≤◌, length};

// Their lengths were looked at once, when this was made.
#[derive(Clone, Copy)]
pub struct Inputs<'a> {
    pub nonce: &'a [u8],
    pub ad: &'a [u8],
    ghost nonce_high: { length nonce.now ≤ 31 },
    ghost ad_high: { length ad.now ≤ 1024 },
}
