//! The printed form of names.
ghost use Rattle.std.specs.Prelude.{◌≡◌, ◌<◌, ◌↔◌, [], length, IsErrOf, IfOk};
ghost use Rattle.vol_bytes.specs.NameText.{IsNameText, name_text};
ghost use Rattle.vol_bytes.specs.declared.text.TextFault.TheVariants.{Memory};

use crate::character::first_text;
use crate::small::Octets;
use std::alloc::{AllocError, Global};
use thiserror::Error;

/// Why there is no text of units, or no units of a text.
#[derive(Clone, Copy, Debug, PartialEq, Eq, Error)]
pub enum TextFault {
    /// There are no units, or the text is no name text.
    #[error("no name")]
    Bad,
    /// Memory ran out.
    #[error("out of memory")]
    Memory,
}

impl From<AllocError> for TextFault {
    ghost from_gives = { λ _ fault. fault ≡ Memory };

    fn from(_error: AllocError) -> TextFault {
        TextFault::Memory
    }
}

/// The printed form of a name.
///
/// # Errors
///
/// `Bad` exactly where there are no units, and `Memory`.
pub fn text_of_units(alloc: Global, units: &[u16]) -> Result<Octets, TextFault>
    ensures text { IfOk result (λ text. text ≡ name_text units.now) }
    ensures name { IfOk result (λ text. IsNameText text units.now) }
    ensures some { IfOk result (λ text. 0 < length units.now) }
    ensures bad { IsErrOf result TextFault.Bad ↔ (units.now ≡ []) }
{
    if units.is_empty() {
        return Err(TextFault::Bad);
    }
    let mut text = Vec::new(alloc);
    let mut at = 0;
    while at < units.len() {
        let first = first_text(&units[at..]);
        text.extend_from_slice(first.text.as_slice())?;
        at += first.units;
    }
    Ok(Octets::from_vec(text))
}
