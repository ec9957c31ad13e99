//! What holds of every chain. A function here does nothing: its contract is the law.

ghost use Rattle.lfs_file.specs.Laws.{LeastIsLeast, LeastIsOne, ChainsAreFound, FoundAreChains, ChainsAreOne, ChainsDiffer, ChainsFit, ChainsStay, FoundStay, ContentStays, EmptyIsFound, ContentHasLength, LaidAreAsMany, LaidAreComplete, LaidAreBytes, LaidIsChain, LaidIsFound, LaidIsContent};

/// Law: the number of blocks that a file takes is the least that hold it, and the only least one.
pub fn least_blocks_are_least()
    ensures least { LeastIsLeast }
    ensures one { LeastIsOne }
{}

/// Law: the chain that is found is a chain, every chain is found, a file has one at most, and a file of no
/// bytes has the chain of no blocks.
pub fn files_have_one_chain()
    ensures found { ChainsAreFound }
    ensures chain { FoundAreChains }
    ensures one { ChainsAreOne }
    ensures empty { EmptyIsFound }
{}

/// Law: the blocks of a chain are on the disk and differ, so that they are no more than the disk has.
pub fn blocks_of_chains_differ()
    ensures differ { ChainsDiffer }
    ensures fit { ChainsFit }
{}

/// Law: a chain and its content depend on the chain's own blocks alone.
pub fn chains_stay_on_their_blocks()
    ensures chain { ChainsStay }
    ensures found { FoundStay }
    ensures content { ContentStays }
{}

/// Law: the content of a file has the file's length.
pub fn contents_have_their_length()
    ensures { ContentHasLength }
{}

/// Law: the blocks that are laid for a file are as many as they are to be, each of the block size, and of bytes.
pub fn laid_blocks_are_complete()
    ensures many { LaidAreAsMany }
    ensures complete { LaidAreComplete }
    ensures bytes { LaidAreBytes }
{}

/// Law: a disk with the laid blocks of a file has the file's chain in them, and the content of the chain is the file's
/// bytes.
pub fn laid_blocks_are_chains()
    ensures chain { LaidIsChain }
    ensures found { LaidIsFound }
    ensures content { LaidIsContent }
{}
