//! Safety codes.
ghost use Rattle.std.specs.Prelude.{◌≡◌, length, bytes_eq};
ghost use Rattle.rasta_md4.specs.Md4.{md4};
ghost use Rattle.rasta_pdu.specs.Params.{AreParameters};
ghost use Rattle.rasta_pdu.specs.Pdu.{code_over};

use crate::params::Params;

// The digest of the bytes, from the recorded start words.
pub fn digest(params: &Params, covered: &[u8]) -> [u8; 16]
    ensures value { result ≡ md4 params.now.md4_start covered.now }
    ensures valid { AreParameters params.now }
{
    rasta_md4::digest(params.md4_start(), covered)
}

// Whether this is the safety code over the bytes.
pub fn is_code(params: &Params, covered: &[u8], code: &[u8]) -> bool
    requires { length code.now ≡ params.now.code_length }
    ensures { result ≡ bytes_eq (code_over params.now covered.now) code.now }
{
    if code.is_empty() {
        return true;
    }
    let digest = digest(params, covered);
    let expected = &digest[..code.len()];
    expected == code
}
