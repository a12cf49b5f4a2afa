ghost use Rattle.std.specs.Prelude.{◌≡◌, ◌<◌, ◌≤◌, MatchOption, IsTrue, map, length};
ghost use Rattle.xmp_values.specs.Digits.{AreDigits, AreCapitals, capital, is_capital, is_digit};

use std::marker::Model;

/// 32 hexadecimal digits in capitals, which name an extended text: the 16 bytes of its MD5.
#[derive(Drop)]
pub struct Digits {
    held: [u8; 32],
}

impl Model for Digits {
    ghost use Rattle.std.specs.Prelude.{List, ℕ};

    ghost Value = { List ℕ };

    ghost use Rattle.xmp_values.specs.Digits.{AreCapitals};

    ghost view = { λ d. d.held };

    ghost invariant = { λ d. AreCapitals d.held };
}

/// Whether the byte is a hexadecimal digit, in capitals or not.
#[tactic(auto, unfolding(crate::specs::Digits::is_digit))]
pub fn is_hex_digit(byte: u8) -> bool
    ensures { result ≡ is_digit byte }
{
    (b'0' <= byte && byte <= b'9')
        || (b'A' <= byte && byte <= b'F')
        || (b'a' <= byte && byte <= b'f')
}

/// The capital of a hexadecimal digit.
#[tactic(auto, unfolding(crate::specs::Digits::capital, crate::specs::Digits::is_digit, crate::specs::Digits::is_capital))]
fn capital_of(byte: u8) -> u8
    requires { IsTrue (is_digit byte) }
    ensures value { result ≡ capital byte }
    ensures capital { IsTrue (is_capital result) }
{
    if b'a' <= byte && byte <= b'f' {
        byte - 32
    } else {
        byte
    }
}

impl Digits {
    /// The digits of a text, in capitals; None exactly where it isn't 32 hexadecimal digits.
    pub fn read(bytes: &[u8]) -> Option<Digits>
        ensures { MatchOption result (AreDigits bytes.now → ⊥) (λ d. AreDigits bytes.now × (d ≡ map capital bytes.now)) }
    {
        if bytes.len() != 32 {
            return None;
        }
        let mut held = [0; 32];
        for i in 0..32 {
            if !is_hex_digit(bytes[i]) {
                return None;
            }
            held[i] = capital_of(bytes[i]);
        }
        Some(Digits { held })
    }

    /// The 32 digits.
    pub fn bytes(&self) -> &[u8]
        ensures value { result.now ≡ self.now }
        ensures capitals { AreCapitals self.now }
    {
        self.held.as_slice()
    }

    /// A copy of the digits, which takes no memory.
    pub fn copy(&self) -> Digits
        ensures { result ≡ self.now }
    {
        Digits { held: self.held }
    }
}
