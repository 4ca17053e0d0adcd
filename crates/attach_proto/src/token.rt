//! Tokens. Contracts see a token as its list of digits.

ghost use Rattle.std.specs.Prelude.{◌≡◌, ◌↔◌, IsTrue};
ghost use Rattle.std.specs.List.{list_all};
ghost use Rattle.attach_proto.specs.Texts.{token_of, IsToken, is_token, is_digit};

use std::fmt;
use std::marker::Model;

/// How many digits a token has.
pub const TOKEN_LEN: usize = 64;

/// The 64 digits, `0` to `9` and `a` to `f`, that prove for which user a peer acts.
#[derive(Drop)]
pub struct Token {
    digits: [u8; TOKEN_LEN],
}

impl Model for Token {
    ghost use Rattle.std.specs.Prelude.{List, ℕ};

    ghost Value = { List ℕ };

    ghost use Rattle.attach_proto.specs.Texts.{IsToken};

    ghost view = { λ t. t.digits };

    ghost invariant = { λ t. IsToken t.digits };
}

/// A token's digits aren't shown.
impl fmt::Debug for Token {
    fn fmt<W: fmt::Write>(&self, f: &mut fmt::Formatter<W>) -> fmt::Result {
        f.write_str("Token")
    }
}

fn is_digit(byte: u8) -> bool
    ensures { result ≡ is_digit byte }
{
    byte.is_ascii_digit() || (b'a' <= byte && byte <= b'f')
}

fn are_digits(bytes: &[u8]) -> bool
    ensures { result ≡ list_all is_digit bytes.now }
{
    bytes.iter().all(|byte| is_digit(*byte))
}

fn is_token(bytes: &[u8]) -> bool
    ensures { result ≡ is_token bytes.now }
{
    bytes.len() == TOKEN_LEN && are_digits(bytes)
}

// All bytes are compared, so that the time doesn't depend on where the first difference is.
fn are_same(ours: &[u8; TOKEN_LEN], theirs: &[u8; TOKEN_LEN]) -> bool
    ensures { IsTrue result ↔ (ours.now ≡ theirs.now) }
{
    let mut difference = 0;
    for i in 0..TOKEN_LEN {
        difference |= ours[i] ^ theirs[i];
    }
    difference == 0
}

impl Token {
    /// The token of these bytes, if they are 64 such digits.
    pub fn read(bytes: &[u8]) -> Option<Token>
        ensures { result ≡ token_of bytes.now }
    {
        if !is_token(bytes) {
            return None;
        }
        let mut digits = [0; TOKEN_LEN];
        digits.copy_from_slice(bytes);
        Some(Token { digits })
    }

    /// A token of the same digits.
    pub fn copied(&self) -> Token
        ensures { result ≡ self.now }
    {
        Token {
            digits: self.digits,
        }
    }

    /// Whether the other one has the same digits. The time doesn't depend on where they differ.
    pub fn is(&self, other: &Token) -> bool
        ensures { IsTrue result ↔ (self.now ≡ other.now) }
    {
        are_same(&self.digits, &other.digits)
    }

    pub fn as_slice(&self) -> &[u8]
        ensures value { result.now ≡ self.now }
        ensures token { IsToken self.now }
    {
        self.digits.as_slice()
    }
}
