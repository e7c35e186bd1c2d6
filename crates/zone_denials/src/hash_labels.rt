//! Hashes as labels, in base32hex without padding (RFC 4648 section 7, RFC 5155 section 3).

ghost use Rattle.std.specs.Prelude.{◌≡◌, ◌<◌, IfSome};
ghost use Rattle.zone_denials.specs.HashLabels.{digit_in, group_in, hash_in};

/// The value of a digit, in upper or lower case.
fn digit_of(octet: u8) -> Option<u8>
    ensures value { result ≡ digit_in octet }
    ensures below { IfSome result (λ value. value < 32) }
{
    match octet {
        b'0'..=b'9' => Some(octet - b'0'),
        b'A'..=b'V' => Some(octet - b'A' + 10),
        b'a'..=b'v' => Some(octet - b'a' + 10),
        _ => None,
    }
}

/// The octets of eight digits.
fn group_of(text: &[u8]) -> Option<[u8; 5]>
    ensures { result ≡ group_in text.now }
{
    let [a, b, c, d, e, f, g, h] = text else {
        return None;
    };
    let (a, b) = (digit_of(*a)?, digit_of(*b)?);
    let (c, d) = (digit_of(*c)?, digit_of(*d)?);
    let (e, f) = (digit_of(*e)?, digit_of(*f)?);
    let (g, h) = (digit_of(*g)?, digit_of(*h)?);
    Some([
        a * 8 + b / 4,
        b % 4 * 64 + c * 2 + d / 16,
        d % 16 * 16 + e / 2,
        e % 2 * 128 + f * 4 + g / 8,
        g % 8 * 32 + h,
    ])
}

/// The hash of SHA-1 that a label has, if it has one.
pub fn hash_of(label: &[u8]) -> Option<[u8; 20]>
    ensures { result ≡ hash_in label.now }
{
    if label.len() != 32 {
        return None;
    }
    let [a, b, c, d, e] = group_of(&label[..8])?;
    let [f, g, h, i, j] = group_of(&label[8..16])?;
    let [k, l, m, n, o] = group_of(&label[16..24])?;
    let [p, q, r, s, t] = group_of(&label[24..32])?;
    Some([a, b, c, d, e, f, g, h, i, j, k, l, m, n, o, p, q, r, s, t])
}
