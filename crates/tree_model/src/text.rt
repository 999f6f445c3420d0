//! The text of a path, by which the lines of `links` are put in order.
ghost use Rattle.std.specs.Prelude.{◌≡◌, IfErr, IfOk};
ghost use Rattle.vol_bytes.specs.NameText.{name_text};
ghost use Rattle.tree_model.specs.Answers.{path_text};
ghost use Rattle.tree_model.specs.declared.reply.No.TheVariants as no;

use crate::reply::No;
use std::alloc::Global;
use vol_bytes::{Name, Octets, text_of_units};

// The text of a name; that of no units is empty.
fn name_text(alloc: Global, name: &[u16]) -> Result<Octets, No>
    ensures ok { IfOk result (λ text. text ≡ name_text name.now) }
    ensures err { IfErr result (λ refused. refused ≡ no.Memory) }
{
    if name.is_empty() {
        return Ok(Octets::from_vec(Vec::new(alloc)));
    }
    match text_of_units(alloc, name) {
        Ok(text) => Ok(text),
        Err(_) => Err(No::Memory),
    }
}

/// The text of a path: a slash and a name's text for each of its names.
///
/// # Errors
///
/// `Memory` alone.
pub fn path_text(alloc: Global, path: &[Name]) -> Result<Vec<u8>, No>
    ensures ok { IfOk result (λ text. text.items ≡ path_text path.now) }
    ensures err { IfErr result (λ refused. refused ≡ no.Memory) }
{
    let mut text = Vec::new(alloc);
    'names: for name in path {
        let name = name_text(alloc, name.as_slice())?;
        text.push(b'/')?;
        text.extend_from_slice(name.as_slice())?;
    }
    Ok(text)
}
