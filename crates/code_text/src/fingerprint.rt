// What ties a header and a file of C together.

ghost use Rattle.std.specs.Prelude.{◌≡◌};
ghost use Rattle.code_text.specs.Fingerprint.{fingerprint};

/// The fingerprint of these bytes: FNV-1a, of 64 bits.
pub(crate) fn fingerprint(bytes: &[u8]) -> u64
    ensures { result ≡ fingerprint bytes.now }
{
    let mut hash: u64 = 14_695_981_039_346_656_037;
    for byte in bytes {
        hash = (hash ^ u64::from(*byte)).wrapping_mul(1_099_511_628_211);
    }
    hash
}
