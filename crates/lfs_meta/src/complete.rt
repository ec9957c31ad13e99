//! Entries made complete, with bytes of their own.

ghost use Rattle.std.specs.Prelude.{◌≡◌, ◌<◌, [], ◌∷◌, ◌++◌, length, Some, IfOk, IfErr, OnOk, All};
ghost use Rattle.std.specs.List.{AllByRecursion};
ghost use Rattle.lfs_meta.specs.Complete.{IsComplete};
ghost use Rattle.lfs_meta.specs.BodySeen.{body_seen};
ghost use Rattle.lfs_meta.specs.BodyHeld.{body_held};
ghost use Rattle.lfs_meta.specs.Cause.{RawEntryCause, RawEntriesCause};
ghost use Rattle.lfs_meta.specs.Fits.{AttributeFits, BodyFits, ContentsFit, EntryFits, RawEntryFits, RiseFrom};
ghost use Rattle.lfs_meta.specs.Complete.{all_complete, kind_takes_body, kind_takes_name, complete};

use crate::attribute::Attribute;
use crate::attribute_ref::AttributeRef;
use crate::body::Body;
use crate::body_ref::BodyRef;
use crate::entry::Entry;
use crate::entry_draft::EntryDraft;
use crate::kind::Kind;
use crate::name::is_name;
use lfs_block::MountFault;
use std::alloc::{AllocError, Global};

/// Whether a kind takes a struct.
fn kind_takes_body(kind: Kind, body: BodyRef<'_>) -> bool
    ensures { result ≡ kind_takes_body kind (body_seen body.entry) }
{
    match kind {
        Kind::File => !matches!(body, BodyRef::Directory(..)),
        Kind::Dir => matches!(body, BodyRef::Directory(..)),
        Kind::Super => matches!(body, BodyRef::Inline(_)),
    }
}

/// Whether a kind takes a name.
fn kind_takes_name(kind: Kind, name: &[u8]) -> bool
    ensures { result ≡ kind_takes_name kind name.now }
{
    match kind {
        Kind::File | Kind::Dir => is_name(name),
        Kind::Super => true,
    }
}

/// A struct with bytes of its own.
fn body_of(alloc: Global, body: BodyRef<'_>) -> Result<Body, AllocError>
    requires { ContentsFit (body_seen body) }
    ensures held { IfOk result (λ held. body_held held ≡ body_seen body.entry) }
    ensures fits { IfOk result (λ held. BodyFits (body_held held)) }
{
    Ok(match body {
        BodyRef::Inline(bytes) => Body::Inline(Vec::from_slice(alloc, bytes)?),
        BodyRef::Chain { head, size } => Body::Chain { head, size },
        BodyRef::Directory(first, second) => Body::Directory(first, second),
    })
}

/// An attribute with bytes of its own.
fn attribute_of(alloc: Global, attribute: &AttributeRef<'_>) -> Result<Attribute, AllocError>
    requires { AttributeFits attribute.now }
    ensures { IfOk result (λ held. held ≡ attribute.now) }
{
    Ok(Attribute {
        kind: attribute.kind,
        value: Vec::from_slice(alloc, attribute.value)?,
    })
}

/// Attributes with bytes of their own.
fn attributes_of(
    alloc: Global,
    attributes: &[AttributeRef<'_>],
) -> Result<Vec<Attribute>, AllocError>
    requires { All AttributeFits attributes.now }
    ensures { IfOk result (λ held. held.items ≡ attributes.now) }
{
    let mut held = Vec::new(alloc);
    for attribute in attributes {
        held.push(attribute_of(alloc, attribute)?)?;
    }
    Ok(held)
}

/// The entry with bytes of its own.
fn entry_of(
    alloc: Global,
    kind: Kind,
    name: &[u8],
    body: BodyRef<'_>,
    attributes: &[AttributeRef<'_>],
) -> Result<Entry, AllocError>
    requires name { length name.now < 1023 }
    requires contents { ContentsFit (body_seen body) }
    requires rise { RiseFrom 0 attributes.now }
    ensures entry { IfOk result (λ entry. entry ≡ record {
      kind = kind;
      name = name.now;
      body = body_seen body.entry;
      attributes = attributes.now;
    }) }
    ensures fits { IfOk result EntryFits }
{
    let name = Vec::from_slice(alloc, name)?;
    let body = body_of(alloc, body)?;
    let attributes = attributes_of(alloc, attributes)?;
    Ok(Entry {
        name,
        kind,
        body,
        attributes,
    })
}

/// The entry made complete: `IncompleteEntry` where it has no name, no struct or one that its kind doesn't take, `BadName`
/// where its kind doesn't take its name. Where both hold, one of them is named.
fn complete(alloc: Global, draft: &EntryDraft<'_>) -> Result<Entry, MountFault>
    requires { RawEntryFits draft.now }
    ensures found { IfOk result (λ entry. complete draft.now ≡ Some entry) }
    ensures fits { IfOk result EntryFits }
    ensures refused { IfErr result (λ fault. RawEntryCause fault draft.now) }
{
    let Some((kind, name)) = draft.name else {
        return Err(MountFault::IncompleteEntry);
    };
    let Some(body) = draft.body else {
        return Err(MountFault::IncompleteEntry);
    };
    if !kind_takes_body(kind, body) {
        return Err(MountFault::IncompleteEntry);
    }
    if !kind_takes_name(kind, name) {
        return Err(MountFault::BadName);
    }
    Ok(entry_of(alloc, kind, name, body, &draft.attributes)?)
}

/// Adds an entry.
fn keep(entries: &mut Vec<Entry>, entry: Entry) -> Result<(), AllocError>
    ensures kept { OnOk result (entries.new.items ≡ entries.old.items ++ entry ∷ []) }
{
    entries.push(entry)?;
    Ok(())
}

/// All entries made complete, or the fault of one that isn't.
pub(crate) fn all_complete(
    alloc: Global,
    drafts: &[EntryDraft<'_>],
) -> Result<Vec<Entry>, MountFault>
    requires { All RawEntryFits drafts.now }
    ensures found { IfOk result (λ entries. all_complete drafts.now ≡ Some entries.items) }
    ensures complete { IfOk result (λ entries. AllByRecursion IsComplete entries.items) }
    ensures fit { IfOk result (λ entries. All EntryFits entries.items) }
    ensures refused { IfErr result (λ fault. RawEntriesCause fault drafts.now) }
{
    let mut entries = Vec::with_capacity(alloc, drafts.len())?;
    for draft in drafts {
        let entry = complete(alloc, draft)?;
        keep(&mut entries, entry)?;
    }
    Ok(entries)
}
