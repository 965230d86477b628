ghost use Rattle.std.specs.Prelude.{◌≡◌, IsTrue};
ghost use Rattle.std.specs.Char.{is_ascii_alphanumeric};
ghost use Rattle.std.specs.List.{list_all};
ghost use Rattle.std.specs.Str.{bytes_eq};
ghost use Rattle.schedule_file.specs.ManagerName.{is_manager_name, manager_name_in};

use arrayvec::ArrayString;
use std::marker::Model;

/// The name of a subnet manager: 1 to 16 ASCII letters and digits.
#[derive(Drop)]
pub struct ManagerName {
    text: ArrayString<16>,
}

impl Model for ManagerName {
    ghost use Rattle.std.specs.Prelude.{ℕ, List, IsTrue};
    ghost use Rattle.schedule_file.specs.ManagerName.{is_manager_name};

    ghost Value = { List ℕ };

    ghost view = { λ a. a.text.bytes };

    ghost invariant = { λ a. IsTrue (is_manager_name a.text.bytes) };
}

impl ManagerName {
    /// Returns `name` as a manager's name, or `None` unless `name` is 1 to 16 ASCII letters and digits.
    pub fn new(name: &[u8]) -> Option<Self>
        ensures { result ≡ manager_name_in name.now }
    {
        if is_manager_name(name) {
            Some(ManagerName { text: text(name) })
        } else {
            None
        }
    }

    /// Returns the name as text.
    pub fn as_str(&self) -> &str
        ensures name { result.now ≡ self.now }
        ensures is_name { IsTrue (is_manager_name self.now) }
    {
        self.text.as_str()
    }

    /// Returns whether `self` and `other` are equal.
    pub(crate) fn is(&self, other: &ManagerName) -> bool
        ensures { result ≡ bytes_eq self.now other.now }
    {
        self.as_str().as_bytes() == other.as_str().as_bytes()
    }
}

/// The name `0`, which fills the unused slots of a vector of fixed capacity.
impl Default for ManagerName {
    fn default() -> Self {
        ManagerName { text: text(b"0") }
    }
}

/// Returns whether `name` is a manager's name: 1 to 16 ASCII letters and digits.
fn is_manager_name(name: &[u8]) -> bool
    ensures { result ≡ is_manager_name name.now }
{
    !name.is_empty() && name.len() <= 16 && are_letters_and_digits(name)
}

/// Returns whether each of `bytes` is an ASCII letter or digit.
fn are_letters_and_digits(bytes: &[u8]) -> bool
    ensures { result ≡ list_all is_ascii_alphanumeric bytes.now }
{
    bytes.iter().all(|byte| byte.is_ascii_alphanumeric())
}

/// Returns the text of the manager's name `name`.
fn text(name: &[u8]) -> ArrayString<16>
    requires { IsTrue (is_manager_name name.now) }
    ensures { result.bytes ≡ name.now }
{
    let mut text = ArrayString::new();
    for byte in name {
        text.push(char::from(*byte));
    }
    text
}
