// Groups of Base64 (RFC 4648, section 4).
ghost use Rattle.std.specs.Prelude.{◌≡◌, ◌↔◌, ◌-◌, ◌==◌, List, ℕ, length, take, drop, replicate, slice_index, IfOk, IfErr, OnErr};
ghost use Rattle.sp_base.specs.declared.kinds.PKind.TheVariants.{BadBase64};
ghost use Rattle.sp_lib.specs.Base64.{IsGroup, padding};

use base64::engine::general_purpose::STANDARD;
use sp_base::PKind;

/// The bytes that a group stands for: the first `used` of `bytes`, 1 to 3; those behind them are 0.
#[derive(Clone, Copy, PartialEq, Eq)]
pub struct Decoded {
    pub bytes: [u8; 3],
    pub used: u8,
}

/// The bytes that a group of four symbols stands for, by the alphabet of RFC 4648, table 1, with padding where it has fewer than
/// three bytes and zero bits behind the last byte. `last` becomes whether the group is padded. It takes no memory. Error:
/// `BadBase64` where the symbols are no such group, and `last` stays as it was.
pub fn base64_group(four: &[u8], last: &mut bool) -> Result<Decoded, PKind>
    requires { length four.now ≡ 4 }
    ensures group { IfOk result (λ d. (bytes : List ℕ) →
        IsGroup four.now bytes ↔ (bytes ≡ take d.used d.bytes)) }
    ensures rest { IfOk result (λ d. drop d.used d.bytes ≡ replicate (3 - d.used) 0) }
    ensures last { IfOk result (λ _. last.new ≡ (slice_index four.now 3 == padding)) }
    ensures kind { IfErr result (λ kind. kind ≡ BadBase64) }
    ensures none { IfErr result (λ _. (bytes : List ℕ) → ¬ IsGroup four.now bytes) }
    ensures same { OnErr result (last.new ≡ last.old) }
{
    let mut bytes = [0u8; 3];
    match STANDARD.decode_slice(four, &mut bytes) {
        Ok(used) => {
            *last = four[3] == b'=';
            Ok(Decoded {
                bytes,
                used: used as u8,
            })
        }
        Err(_) => Err(PKind::BadBase64),
    }
}
