//! What is made under a word for an entry's name.

ghost use Rattle.std.specs.Prelude.{◌≡◌, ◌≢◌, [], ◌∷◌, ℕ, List, IfErr, IfOk, IfSome, MatchResult, is_err, option_map, string_bytes};
ghost use Rattle.lfs_extract.specs.declared.extract_fault.ExtractFault.TheVariants.{CannotWrite, HostName};
ghost use Rattle.lfs_host.specs.NewFolder.{Makes};
ghost use Rattle.lfs_host.specs.Scene.{KeepsFiles, Notes};
ghost use Rattle.lfs_salvage.specs.Below.{HasRefusedBelow, IsNameBelow, MakesBelow};
ghost use Rattle.lfs_salvage.specs.Naming.{GetsFirst, TriesName, thing_call, thing_made};
ghost use Rattle.lfs_salvage.specs.Word.{word_in};

use crate::entry_name::EntryName;
use crate::thing::Thing;
use crate::wording::Wording;
use crate::words::word_below;
use lfs_extract::ExtractFault;
use lfs_host::{MakeFault, NewFolder};
use std::alloc::Global;

/// Makes something under a name.
fn make<F: NewFolder>(what: Thing, name: &str, folder: &mut F) -> Result<(), MakeFault>
    ensures made { MatchResult result (λ _. Makes (F.known folder.old).made (F.known folder.new).made (thing_made what name.now ∷ []))
        (λ _. (F.known folder.new).made ≡ (F.known folder.old).made) }
    ensures noted { Notes (thing_call what name.now) (is_err result) (F.known folder.old) (F.known folder.new) }
    ensures kept { KeepsFiles (F.known folder.old) (F.known folder.new) }
{
    match what {
        Thing::Folder => folder.make_folder(name),
        Thing::File => folder.begin_file(name),
    }
}

/// Makes something under a word for an entry's name, and says its name; none if the host can't have that.
fn make_as<F: NewFolder>(
    alloc: Global,
    what: Thing,
    above: &str,
    named: EntryName<'_>,
    word: Wording,
    folder: &mut F,
) -> Result<Option<String>, ExtractFault>
    ensures tried { IfOk result (λ name. TriesName what (word_in above.now named.entry.block named.entry.index named.entry.name.now word)
        (option_map string_bytes name) (F.known folder.old) (F.known folder.new)) }
    ensures stopped { IfErr result (λ fault. (fault ≢ HostName) × ((F.known folder.new).made ≡ (F.known folder.old).made)) }
    ensures named { (top : List ℕ) → IsNameBelow top above.now → IfOk result (λ name. IfSome name (λ text. IsNameBelow top (string_bytes text))) }
    ensures below { (top : List ℕ) → IsNameBelow top above.now → MakesBelow top (F.known folder.old).made (F.known folder.new).made }
    ensures blamed { (top : List ℕ) → IsNameBelow top above.now → IfErr result (λ fault. fault ≡ CannotWrite → HasRefusedBelow (F.known folder.new) top) }
    ensures kept { KeepsFiles (F.known folder.old) (F.known folder.new) }
{
    let name = word_below(alloc, above, named, word)?;
    match make(what, name.as_str(), folder) {
        Ok(()) => Ok(Some(name)),
        Err(MakeFault::Name) => Ok(None),
        Err(MakeFault::Other) => Err(ExtractFault::CannotWrite),
    }
}

/// Makes something under the first of the words for an entry's name that the host can have, and says its name; none if it can have none of
/// them.
pub(crate) fn make_first<F: NewFolder>(
    alloc: Global,
    what: Thing,
    above: &str,
    named: EntryName<'_>,
    folder: &mut F,
) -> Result<Option<String>, ExtractFault>
    ensures made { IfOk result (λ name. GetsFirst what (word_in above.now named.entry.block named.entry.index named.entry.name.now)
        (option_map string_bytes name) (F.known folder.old) (F.known folder.new)) }
    ensures stopped { IfErr result (λ fault. (fault ≢ HostName) × ((F.known folder.new).made ≡ (F.known folder.old).made)) }
    ensures named { (top : List ℕ) → IsNameBelow top above.now → IfOk result (λ name. IfSome name (λ text. IsNameBelow top (string_bytes text))) }
    ensures below { (top : List ℕ) → IsNameBelow top above.now → MakesBelow top (F.known folder.old).made (F.known folder.new).made }
    ensures blamed { (top : List ℕ) → IsNameBelow top above.now → IfErr result (λ fault. fault ≡ CannotWrite → HasRefusedBelow (F.known folder.new) top) }
    ensures kept { KeepsFiles (F.known folder.old) (F.known folder.new) }
{
    if let Some(name) = make_as(alloc, what, above, named, Wording::Own, folder)? {
        return Ok(Some(name));
    }
    if let Some(name) = make_as(alloc, what, above, named, Wording::Numbered, folder)? {
        return Ok(Some(name));
    }
    make_as(alloc, what, above, named, Wording::Alone, folder)
}
