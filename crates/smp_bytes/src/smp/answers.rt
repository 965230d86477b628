ghost use Rattle.std.specs.Prelude.{◌≡◌, option_copied};
ghost use Rattle.smp_bytes.specs.Answers.{answers, goes_by, has_ports};

use crate::header::{AttributeId, SmpClass};
use crate::path::Path;
use crate::smp::Smp;

impl Smp {
    /// Returns whether the packet has the TransactionID `transaction`, the AttributeID `attribute`, the
    /// AttributeModifier `modifier` and the path `path`. If `path` is `None`, the packet must be LID routed. Ignores
    /// the method and the status.
    pub fn answers(
        &self,
        transaction: u64,
        attribute: AttributeId,
        modifier: u32,
        path: Option<&Path<63>>,
    ) -> bool
        ensures { result
            ≡ answers self.now transaction attribute.0 modifier (option_copied path.entry) }
    {
        transaction == self.transaction_id()
            && self.attribute_id() == attribute
            && self.attribute_modifier() == modifier
            && self.goes_by(path)
    }

    /// Returns whether the packet is directed over `path` or, if `path` is `None`, LID routed.
    fn goes_by(&self, path: Option<&Path<63>>) -> bool
        ensures { result ≡ goes_by self.now (option_copied path.entry) }
    {
        match path {
            None => self.class() == SmpClass::LidRouted,
            Some(path) => {
                self.class() == SmpClass::DirectedRoute
                    && usize::from(self.hop_count()) == path.len()
                    && self.has_ports(path)
            }
        }
    }

    /// Returns whether InitialPath has the ports of `path` from index 1 on.
    fn has_ports(&self, path: &Path<63>) -> bool
        ensures { result ≡ has_ports self.now 1 path.now }
    {
        for i in 0..path.len() {
            if self.initial_path(i + 1) != path.get(i).unwrap() {
                return false;
            }
        }
        true
    }
}
