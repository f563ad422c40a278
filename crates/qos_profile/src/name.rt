//! A meter's name.
ghost use Rattle.std.specs.Prelude.{◌≡◌, ◌≤◌, ◌-◌, ◌++◌, length, replicate};
ghost use Rattle.std.specs.List.{list_all};
ghost use Rattle.profile_plan.specs.Limits.{is_name_byte};

/// The longest name.
pub(crate) const LONGEST: usize = 32;

/// A name of 1 to 32 of the letters a to z, the digits and `_`; the bytes past its length are 0.
#[derive(Clone, Copy, PartialEq, Eq, Hash)]
pub(crate) struct Name {
    pub bytes: [u8; LONGEST],
    pub length: usize,
}

impl Name {
    ghost use Rattle.qos_profile.specs.Values.{name_of};

    /// The name that a word is.
    #[tactic(auto, unfolding(crate::specs::Values::name_of))]
    pub fn of(word: &[u8]) -> Option<Name>
        ensures { result ≡ name_of word.now }
    {
        if word.is_empty() || LONGEST < word.len() || !are_name_bytes(word) {
            return None;
        }
        Some(Name {
            bytes: padded(word),
            length: word.len(),
        })
    }
}

fn are_name_bytes(word: &[u8]) -> bool
    ensures { result ≡ list_all is_name_byte word.now }
{
    word.iter().all(|byte| is_name_byte(*byte))
}

fn is_name_byte(byte: u8) -> bool
    ensures { result ≡ is_name_byte byte }
{
    97 <= byte && byte <= 122 || 48 <= byte && byte <= 57 || byte == 95
}

fn padded(word: &[u8]) -> [u8; LONGEST]
    requires { length word.now ≤ 32 }
    ensures { result ≡ word.now ++ replicate (32 - length word.now) 0 }
{
    let mut bytes = [0; LONGEST];
    bytes[..word.len()].copy_from_slice(word);
    bytes
}
