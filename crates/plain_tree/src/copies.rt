//! Copies of parts of a tree.
ghost use Rattle.std.specs.Prelude.{◌≡◌, IfErr, IfOk};
ghost use Rattle.tree_model.specs.declared.reply.No.TheVariants as no;

use std::alloc::Global;
use tree_model::{Link, No};
use vol_bytes::{Name, Octets};

// These bytes again.
pub(crate) fn copied(alloc: Global, bytes: &[u8]) -> Result<Octets, No>
    ensures ok { IfOk result (λ octets. octets ≡ bytes.now) }
    ensures err { IfErr result (λ refused. refused ≡ no.Memory) }
{
    Ok(Octets::from_vec(Vec::from_slice(alloc, bytes)?))
}

// This name again.
pub(crate) fn copied_name(alloc: Global, name: &Name) -> Result<Name, No>
    ensures ok { IfOk result (λ copy. copy ≡ name.now) }
    ensures err { IfErr result (λ refused. refused ≡ no.Memory) }
{
    Ok(Name::from_vec(Vec::from_slice(alloc, name.as_slice())?))
}

// This link again.
pub(crate) fn copied_link(alloc: Global, link: &Link) -> Result<Link, No>
    ensures ok { IfOk result (λ copy. copy ≡ link.now) }
    ensures err { IfErr result (λ refused. refused ≡ no.Memory) }
{
    let name = copied_name(alloc, &link.name)?;
    Ok(Link {
        parent: link.parent,
        name,
        space: link.space,
        child: link.child,
    })
}
