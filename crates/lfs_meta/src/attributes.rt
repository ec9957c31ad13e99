//! Attributes that rise by kind, owned or borrowed: set and removed.

ghost use Rattle.std.specs.Prelude.{◌≡◌, ◌==◌, ℕ, not, nat_lt, OnOk, OnErr};
ghost use Rattle.std.specs.List.{filter, prefix_len};
ghost use Rattle.lfs_meta.specs.Attribute.{put_by};

use std::alloc::AllocError;

/// What has a kind.
pub(crate) trait HasKind {
    ghost kind_of: { Self → ℕ };

    /// The kind.
    fn kind(&self) -> u8
        ensures { result ≡ kind_of self.now };
}

/// How many attributes have lesser kinds.
fn place_of<A: HasKind>(attributes: &[A], kind: u8) -> usize
    ensures { result ≡ prefix_len (λ a. nat_lt (A.kind_of a) kind) attributes.now }
{
    attributes
        .iter()
        .take_while(|attribute| attribute.kind() < kind)
        .count()
}

/// Puts an attribute among others, which rise by kind. Want of memory changes nothing.
pub(crate) fn set<A: HasKind + Drop>(
    attributes: &mut Vec<A>,
    attribute: A,
) -> Result<(), AllocError>
    ensures set { OnOk result (attributes.new.items ≡ put_by A.kind_of attribute attributes.old.items) }
    ensures unchanged { OnErr result (attributes.new.items ≡ attributes.old.items) }
{
    let kind = attribute.kind();
    let at = place_of(attributes, kind);
    if at < attributes.len() && attributes[at].kind() == kind {
        attributes[at] = attribute;
        return Ok(());
    }
    attributes.insert(at, attribute)?;
    Ok(())
}

/// Takes the attribute of a kind out.
pub(crate) fn remove<A: HasKind + Drop>(attributes: &mut Vec<A>, kind: u8)
    ensures { attributes.new.items ≡ filter (λ a. not (kind == A.kind_of a)) attributes.old.items }
{
    attributes.retain(
        |attribute| -> bool
            ensures { result ≡ not (kind == A.kind_of attribute.now) }
        { attribute.kind() != kind },
    );
}
