// The search for a block's references and its digest among the blocks that are held.
ghost use Rattle.std.specs.Prelude.{◌≡◌, ◌/◌, length};
ghost use Rattle.base.specs.Search.{below};
ghost use Rattle.sha256.specs.Sha256.{sha256};
ghost use Rattle.answer.specs.Refusals.{answer_of};
ghost use Rattle.block.specs.Limits.{reference_size};
ghost use Rattle.table.specs.Layout.{count_of, view_of};
ghost use Rattle.admission.specs.Steps.{LookedUp, first_missing, places_listed, held_answer};

use answer::Refusal;
use block::ShapedBlock;
use table::index::Index;

// What is found for a list of references: the mask of the places that hold them, and the index of the first reference that no place holds.
#[derive(Clone, Copy, Debug, PartialEq, Eq)]
pub struct Found {
    pub places: u64,
    pub missing: Option<usize>,
}

// Looks up each reference of the list in a table, by the table's index.
pub fn look_up(index: &Index, list: &[u8]) -> Found
    ensures places_value { result.places ≡ places_listed index.now.table.now (count_of index.now.table.now) list.now }
    ensures missing_value { result.missing ≡ below (length list.now / reference_size) (first_missing (view_of index.now.table.now) (count_of index.now.table.now) list.now) }
{
    let mut places: u64 = 0;
    let mut missing = None;
    for i in 0..list.len() / block::REFERENCE_SIZE {
        match index.find(block::references::reference(list, i)) {
            Some(place) => {
                places |= 1u64 << place;
            }
            None => missing = missing.or(Some(i)),
        }
    }
    Found { places, missing }
}

// Checks 8, 9, 10 and 11 of a block that has this digest, and for whose references this was found. A success answers with the next place.
pub fn held_answer(
    index: &Index,
    block: &ShapedBlock,
    digest: &[u8],
    found: Found,
) -> Result<usize, Refusal>
    requires { LookedUp index.now.table.now block.now found × (digest.now ≡ sha256 block.now) }
    ensures { answer_of result ≡ held_answer index.now.table.now block.now }
{
    if let Some(place) = index.find(digest) {
        return Err(Refusal::Held(place));
    }
    if let Some(missing) = found.missing {
        return Err(Refusal::NotHeld(missing));
    }
    let k = table::rows::count_of(index.table);
    if !table::rules::parent_rule(index.table, k, found.places, block.site(), block.sequence()) {
        return Err(Refusal::ParentRule);
    }
    if table::MAX_PLACES <= k {
        return Err(Refusal::TableFull);
    }
    Ok(k)
}
