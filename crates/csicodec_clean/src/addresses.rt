//! Where a link may lead: to a host, by http or https.
ghost use Rattle.std.specs.Prelude.{◌≡◌};
ghost use Rattle.csicodec_clean.specs.Addresses.{has_host, is_host_byte, is_host_on, led, leads_by};

/// A byte of a host, or of the port behind it.
fn is_host_byte(byte: u8) -> bool
    ensures { result ≡ is_host_byte byte }
{
    byte.is_ascii_alphanumeric() || matches!(byte, b'-' | b'.' | b'_' | b'[' | b']' | b':')
}

/// Whether only such bytes stand up to the end, or to what ends a host.
fn is_host_on(bytes: &[u8]) -> bool
    ensures { result ≡ is_host_on bytes.now }
{
    for byte in bytes {
        if !is_host_byte(*byte) {
            return matches!(byte, b'/' | b'?' | b'#');
        }
    }
    true
}

/// Whether a host stands in front.
fn has_host(bytes: &[u8]) -> bool
    ensures { result ≡ has_host bytes.now }
{
    match bytes.split_first() {
        Some((byte, behind)) => is_host_byte(*byte) && *byte != b':' && is_host_on(behind),
        None => false,
    }
}

/// Whether the address has the scheme, whose letters have no case, and a host behind it.
fn leads_by(scheme: &[u8], url: &[u8]) -> bool
    ensures { result ≡ leads_by scheme.now url.now }
{
    match url.split_at_checked(scheme.len()) {
        Some((front, behind)) => front.eq_ignore_ascii_case(scheme) && has_host(behind),
        None => false,
    }
}

/// Where a link to the address leads: there, if that is a host by http or https without a user's name, and else nowhere, which has no
/// bytes.
///
/// ```text
/// led(b"HTTPS://a.example/b")         // b"HTTPS://a.example/b"
/// led(b"https://a.example@b.example") // b""
/// ```
pub fn led(url: &[u8]) -> &[u8]
    ensures { result.now ≡ led url.now }
{
    if leads_by(b"http://", url) || leads_by(b"https://", url) {
        url
    } else {
        &[]
    }
}
