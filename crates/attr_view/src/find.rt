//! Attributes of a record that are sought by their type.
ghost use Rattle.std.specs.Prelude.{◌≡◌, ◌≢◌, ◌==◌, ◌∷◌, [], All, IsFalse, IsTrue};
ghost use Rattle.std.specs.List.{list_any};
ghost use Rattle.std.specs.Option.{option_copied};
ghost use Rattle.ntfs_def.specs.Attribute.{first_value};
ghost use Rattle.ntfs_def.specs.declared.kinds.TheConstants.{ATTRIBUTE_LIST};
ghost use Rattle.attr_view.specs.View.{attribute_of, attributes_of};

use crate::{AttrView, RecordView};
use ntfs_def::kinds::ATTRIBUTE_LIST;

// The value of an attribute, if it is resident, of this type and without a name.
fn unnamed_value<'r>(attribute: &AttrView<'r>, kind: u32) -> Option<&'r [u8]>
    ensures { option_copied result ≡ first_value kind (attribute_of attribute.now ∷ []) }
{
    if attribute.kind() == kind && attribute.name().is_empty() {
        return attribute.value();
    }
    None
}

impl<'r> RecordView<'r> {
    /// The value of the first resident attribute of a type without a name.
    pub fn first_value(&self, kind: u32) -> Option<&'r [u8]>
        ensures { option_copied result ≡ first_value kind (attributes_of self.now) }
    {
        for attribute in self.attributes() {
            if let Some(value) = unnamed_value(&attribute, kind) {
                return Some(value);
            }
        }
        None
    }

    /// Whether the record has an attribute list.
    pub fn has_list(&self) -> bool
        ensures has { result ≡ list_any (λ attribute. attribute.kind == ATTRIBUTE_LIST) (attributes_of self.now) }
        ensures none { IsFalse result → All (λ attribute. attribute.kind ≢ ATTRIBUTE_LIST) (attributes_of self.now) }
        ensures some { IsTrue result → ¬ (All (λ attribute. attribute.kind ≢ ATTRIBUTE_LIST) (attributes_of self.now)) }
    {
        for attribute in self.attributes() {
            if attribute.kind() == ATTRIBUTE_LIST {
                return true;
            }
        }
        false
    }
}
