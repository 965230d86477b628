ghost use Rattle.std.specs.Prelude.{◌≡◌, IsTrue, Some, nat_eq, refl};
ghost use Rattle.std.specs.List.{list_all};
ghost use Rattle.std.specs.Ordering.{nat_cmp};
ghost use Rattle.std.specs.Cmp.{partial_equiv_from_equiv};
ghost use Rattle.std.specs.Cmp.Lexicographic.{pointwise, slice_cmp, nat_list_eq_equiv, nat_list_cmp_total};
ghost use Rattle.std.specs.Cmp.Lexicographic.{texts_po, texts_ties};
ghost use Rattle.text_words.specs.NodeName.{is_name_byte, is_name, name_in};

use arrayvec::ArrayString;
use std::cmp::Ordering;
use std::marker::Model;

/// The name of a node: 1 to 64 printable ASCII characters, which may be blanks but not double quotes. Contracts see the
/// bytes.
#[derive(Debug, Drop)]
pub struct NodeName {
    text: ArrayString<64>,
}

impl Model for NodeName {
    ghost use Rattle.std.specs.Prelude.{ℕ, List, IsTrue};
    ghost use Rattle.text_words.specs.NodeName.{is_name};

    ghost Value = { List ℕ };

    ghost view = { λ a. a.text.bytes };

    ghost invariant = { λ a. IsTrue (is_name a.text.bytes) };
}

impl NodeName {
    /// Creates a name with the bytes `name`. Returns `None` unless `name` is 1 to 64 characters that names may
    /// contain.
    pub fn new(name: &[u8]) -> Option<Self>
        ensures { result ≡ name_in name.now }
    {
        if is_name(name) {
            Some(NodeName { text: text(name) })
        } else {
            None
        }
    }

    /// Returns the name as text.
    pub fn as_str(&self) -> &str
        ensures name { result.now ≡ self.now }
        ensures is_name { IsTrue (is_name self.now) }
    {
        self.text.as_str()
    }

    /// Returns a copy of the name.
    pub fn copied(&self) -> Self
        ensures { result ≡ self.now }
    {
        NodeName { text: self.text }
    }
}

/// Returns whether `name` is 1 to 64 characters that names may contain.
fn is_name(name: &[u8]) -> bool
    ensures { result ≡ is_name name.now }
{
    !name.is_empty() && name.len() <= 64 && are_name_bytes(name)
}

/// Returns whether a name may contain each of `bytes`.
fn are_name_bytes(bytes: &[u8]) -> bool
    ensures { result ≡ list_all is_name_byte bytes.now }
{
    bytes.iter().all(|byte| is_name_byte(*byte))
}

/// Returns whether a name may contain `byte`.
fn is_name_byte(byte: u8) -> bool
    ensures { result ≡ is_name_byte byte }
{
    matches!(byte, 0x20..=0x7E) && byte != b'"'
}

/// Returns the name `name` as text.
fn text(name: &[u8]) -> ArrayString<64>
    requires { IsTrue (is_name name.now) }
    ensures { result.bytes ≡ name.now }
{
    let mut text = ArrayString::new();
    for byte in name {
        text.push(char::from(*byte));
    }
    text
}

impl PartialEq for NodeName {
    ghost eq = { pointwise nat_eq };

    ghost laws = { partial_equiv_from_equiv nat_list_eq_equiv };

    fn eq(&self, other: &Self) -> bool {
        self.as_str() == other.as_str()
    }
}

impl Eq for NodeName {
    ghost laws = { nat_list_eq_equiv };
}

impl PartialOrd for NodeName {
    ghost partial_cmp = { λ x y. Some (slice_cmp nat_cmp x y) };

    ghost laws = { texts_po };

    fn partial_cmp(&self, other: &Self) -> Option<Ordering> {
        Some(self.cmp(other))
    }
}

impl Ord for NodeName {
    ghost cmp = { slice_cmp nat_cmp };

    ghost total = { nat_list_cmp_total };

    ghost matches_partial_cmp = { λ x y. refl };

    ghost matches_eq = { texts_ties };

    fn cmp(&self, other: &Self) -> Ordering {
        self.as_str().cmp(other.as_str())
    }
}
