ghost use Rattle.std.specs.Prelude.{◌≡◌, ◌≤◌, ◌<◌, ◌==◌, IfSome, nat_eq, codes, position, unwrap_or, true};
ghost use Rattle.std.specs.List.{list_all};
ghost use Rattle.std.specs.Cmp.Lexicographic.{pointwise};
ghost use Rattle.acl_words.specs.Names.{is_letter, is_name_byte, is_name, begins_with_letter};
ghost use Rattle.acl_words.specs.Same.{same_user};

/// The most bytes of a name.
const LONGEST: usize = 20;

/// A user's name: 1 to 20 characters of `a` to `z`, `0` to `9` and `_`, the first of them a letter.
/// The word `none` is no name.
#[derive(Clone, Copy, PartialEq, Eq, Hash, Debug)]
pub struct UserId {
    name: [u8; 20],
}

/// Whether a name may begin with the byte.
fn is_letter(byte: u8) -> bool
    ensures { result ≡ is_letter byte }
{
    byte >= b'a' && byte <= b'z'
}

/// Whether the byte may stand in a name.
fn is_name_byte(byte: u8) -> bool
    ensures { result ≡ is_name_byte byte }
{
    is_letter(byte) || (byte >= b'0' && byte <= b'9') || byte == b'_'
}

/// Whether the word begins with a letter.
fn begins_with_letter(word: &[u8]) -> bool
    ensures { result ≡ begins_with_letter word.now }
{
    match word {
        [first, ..] => is_letter(*first),
        [] => false,
    }
}

/// Whether each byte of the word may stand in a name.
fn has_name_bytes(word: &[u8]) -> bool
    ensures { result ≡ list_all is_name_byte word.now }
{
    word.iter().all(|byte| is_name_byte(*byte))
}

/// Whether the word is `none`.
fn is_none_word(word: &[u8]) -> bool
    ensures { result ≡ pointwise nat_eq word.now (codes "none") }
{
    word == b"none".as_slice()
}

/// Whether the word is a name.
fn is_name(word: &[u8]) -> bool
    ensures { result ≡ is_name word.now }
{
    begins_with_letter(word) && word.len() <= LONGEST && has_name_bytes(word) && !is_none_word(word)
}

/// The index of the first zero.
fn first_zero(name: &[u8; 20]) -> Option<usize>
    ensures place { result ≡ position (λ byte. byte == 0) name.now }
    ensures within { IfSome result (λ place. place < 20) }
{
    name.iter().position(|byte| *byte == 0)
}

/// The number of bytes before the zeros.
fn length_of(name: &[u8; 20]) -> usize
    ensures length { result ≡ unwrap_or (position (λ byte. byte == 0) name.now) 20 }
    ensures within { result ≤ 20 }
{
    match first_zero(name) {
        Some(place) => place,
        None => 20,
    }
}

impl UserId {
    ghost use Rattle.std.specs.Prelude.{◌≡◌, IfSome};
    ghost use Rattle.acl_words.specs.Names.{named_by, name_of};

    /// Stands in a place that holds no name.
    pub(crate) const BLANK: UserId = UserId { name: [0; 20] };

    /// The user whom the word names; `None` if the word is no name.
    pub fn of(word: &[u8]) -> Option<UserId>
        ensures named { result ≡ named_by word.now }
        ensures spelled { IfSome result (λ user. name_of user ≡ word.now) }
    {
        if !is_name(word) {
            return None;
        }
        let mut name = [0; 20];
        for i in 0..word.len() {
            name[i] = word[i];
        }
        Some(UserId { name })
    }

    /// The name's bytes.
    pub fn as_bytes(&self) -> &[u8]
        ensures { result.now ≡ name_of self.now }
    {
        &self.name[..length_of(&self.name)]
    }
}

/// If the test finds two names equal, they are equal.
pub fn names_equal()
    ensures equal { (u v : UserId) → same_user u v ≡ true → u ≡ v }
    ensures reflexive { (u : UserId) → same_user u u ≡ true }
    ensures symmetric { (u v : UserId) → same_user u v ≡ same_user v u }
{}
