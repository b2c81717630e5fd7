//! Bytes in hexadecimal digits.
ghost use Rattle.std.specs.Prelude.{◌≡◌, ◌≢◌, ◌↔◌, [], codes, IfOk, IsErr, IsErrOf, IsTrue};
ghost use Rattle.std.specs.List.{AllPass};
ghost use Rattle.hex.specs.Hex.{decode_of, is_hex_digit};

use crate::trouble::Trouble;
use std::alloc::Global;

/// The bytes that pairs of digits write, or no bytes for `-`. A word that is neither is refused as unfit, whatever the
/// memory.
#[tactic(auto, using(crate::proofs::Digits::refused_unless_digits, crate::proofs::Digits::odd_if_refused))]
pub fn parse_bytes(heap: Global, word: &str) -> Result<Vec<u8>, Trouble>
    ensures none { word.now ≡ codes "-" → IfOk result (λ bytes. bytes.items ≡ []) }
    ensures digits { word.now ≢ codes "-" → IfOk result (λ bytes. decode_of word.now ≡ Ok bytes.items) }
    ensures unfit { IsErrOf result Trouble.Unfit → (word.now ≢ codes "-") × IsErr (decode_of word.now) }
    ensures wrong { word.now ≢ codes "-" → IsErr (decode_of word.now) → IsErrOf result Trouble.Unfit }
{
    if word == "-" {
        return Ok(Vec::new(heap));
    }
    // `decode` takes its memory before it reads a digit.
    if !are_digits(word) {
        return Err(Trouble::Unfit);
    }
    Ok(hex::decode(heap, word)?)
}

/// Whether each byte of a word is a digit.
fn are_digits(word: &str) -> bool
    ensures { IsTrue result ↔ AllPass is_hex_digit word.now }
{
    word.bytes().all(|b| b.is_ascii_hexdigit())
}
