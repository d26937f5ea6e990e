// A block of 32 digits, read at once: loops that no step leaves early have vector instructions.
#![tactic(auto)]

ghost use Rattle.std.specs.Prelude.{◌≡◌, IfSome};
ghost use Rattle.lines.specs.Hex.{bytes, read_hex};
ghost use Rattle.hexblock.specs.Valued.{Valued};

// The values of 32 characters, if they are all digits. One that is none counts as 16 meanwhile, so that no step ends the loop.
fn values(s: &[u8; 32]) -> Option<[u8; 32]>
    ensures { IfSome result (Valued 32 s.now) }
{
    let mut v = [0; 32];
    let mut worst = 0u8;
    for j in 0..32 {
        let x = hexdigits::value(s[j]).unwrap_or(16);
        v[j] = x;
        worst = worst.max(x);
    }
    (worst < 16).then_some(v)
}

// The bytes of 32 characters, read at once, if they are all digits.
pub fn block(s: &[u8; 32]) -> Option<[u8; 16]>
    ensures { IfSome result (λ b. read_hex s.now ≡ bytes b) }
{
    let v = values(s)?;
    let mut out = [0; 16];
    for n in 0..16 {
        out[n] = v[2 * n] * 16 + v[2 * n + 1];
    }
    Some(out)
}
