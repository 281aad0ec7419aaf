ghost use Rattle.std.specs.Prelude.{◌≡◌, true, [], ◌<◌, ◌≤◌, ◌^◌, ◌∷◌, ◌++◌, length, IfOk, OnErr};
ghost use Rattle.std.specs.Int.{w64, to_be_bytes};
ghost use Rattle.rg_agg.specs.Held.{Agrees, counts_bytes, pairs_bytes};
ghost use Rattle.rg_agg.specs.Standing.{counts_sum};
ghost use Rattle.rg_event.specs.Tagged.{tagged_bytes};
ghost use Rattle.rg_multiset.specs.Pairs.{IsTally};
ghost use Rattle.rg_multiset.specs.Reading.{behind_at, comes_behind, count_at, is_count, last_kept, length_at, length_behind_at, more_pairs_at, pair_at, pairs_at};

use crate::pair_list::PairList;
use rg_agg::StateFault;
use rg_bytes::ByteReader;

/// Takes a tag, the number of pairs and the pairs into a list without pairs, of at most 2^40 values: values of one
/// kind, each behind the one before it, each count above 0. A refusal leaves the reader as it was.
pub fn read_list<P: PairList>(list: P, tag: u8, from: &mut ByteReader<'_>) -> Result<P, StateFault>
    requires none { P.pairs list ≡ [] }
    requires most { P.most list ≡ 1099511627776 }
    // Pairs are read exactly where each stands behind the one before it and each count is at least 1.
    ensures agrees { Agrees P.pairs (pairs_at P.value_at (P.below list) tag from.old) result from.new }
    ensures ok { IfOk result (λ made. from.old ≡ counts_bytes tag (P.pairs made) ++ from.new) }
    ensures some { IfOk result (λ made. 0 < counts_sum (P.pairs made)) }
    ensures sound { IfOk result (λ made. IsTally P.legal (P.below list) (P.pairs made)) }
    ensures err { OnErr result (from.new ≡ from.old) }
{
    // All that is left, so that a refusal can put it back.
    let bytes = from.bytes(from.left())?;
    let mut left = ByteReader::new(bytes);
    match read_tagged(list, tag, &mut left) {
        Ok(made) => {
            *from = left;
            Ok(made)
        }
        Err(fault) => {
            *from = ByteReader::new(bytes);
            Err(fault)
        }
    }
}

/// Takes the same. A refusal may leave the reader in mid-way.
fn read_tagged<P: PairList>(list: P, tag: u8, from: &mut ByteReader<'_>) -> Result<P, StateFault>
    requires none { P.pairs list ≡ [] }
    requires most { P.most list ≡ 1099511627776 }
    ensures agrees { Agrees P.pairs (pairs_at P.value_at (P.below list) tag from.old) result from.new }
    ensures ok { IfOk result (λ made. from.old ≡ counts_bytes tag (P.pairs made) ++ from.new) }
    ensures some { IfOk result (λ made. 0 < counts_sum (P.pairs made)) }
    ensures sound { IfOk result (λ made. IsTally P.legal (P.below list) (P.pairs made)) }
{
    let count = read_length_behind(tag, from)?;
    read_pairs(list, count, from)
}

/// Takes a tag and the number of pairs, at least 1. A refusal may leave the reader in mid-way.
fn read_length_behind(tag: u8, from: &mut ByteReader<'_>) -> Result<u64, StateFault>
    ensures agrees { Agrees (λ count. count) (length_behind_at tag from.old) result from.new }
    ensures ok { IfOk result (λ count. from.old ≡ tag ∷ (to_be_bytes w64 count ++ from.new)) }
    ensures some { IfOk result (λ count. 0 < count) }
{
    if from.u8()? != tag {
        return Err(StateFault::Unfit);
    }
    read_length(from)
}

/// Takes the number of pairs, at least 1. A refusal may leave the reader in mid-way.
pub fn read_length(from: &mut ByteReader<'_>) -> Result<u64, StateFault>
    ensures agrees { Agrees (λ count. count) (length_at from.old) result from.new }
    ensures ok { IfOk result (λ count. from.old ≡ to_be_bytes w64 count ++ from.new) }
    ensures some { IfOk result (λ count. 0 < count) }
{
    let count = from.u64()?;
    if count == 0 {
        return Err(StateFault::Unfit);
    }
    Ok(count)
}

/// Takes so many values with their counts into a list without pairs. A refusal may leave the reader in mid-way.
pub fn read_pairs<P: PairList>(
    list: P,
    count: u64,
    from: &mut ByteReader<'_>,
) -> Result<P, StateFault>
    requires none { P.pairs list ≡ [] }
    requires few { P.most list ≤ 2 ^ 40 }
    ensures agrees { Agrees P.pairs (more_pairs_at P.value_at (P.below list) (P.most list) [] count from.old) result from.new }
    ensures ok { IfOk result (λ made. from.old ≡ pairs_bytes (P.pairs made) ++ from.new) }
    ensures count { IfOk result (λ made. length (P.pairs made) ≡ count) }
    ensures sound { IfOk result (λ made. IsTally P.legal (P.below list) (P.pairs made)) }
    ensures most { IfOk result (λ made. P.most made ≡ P.most list) }
{
    let mut made = list;
    for done in 0..count {
        let pair = read_pair(&made, from)?;
        match made.push(pair.0, pair.1) {
            Ok(()) => {}
            Err(_) => return Err(StateFault::Memory),
        }
    }
    Ok(made)
}

/// Takes one value more and its count. A refusal may leave the reader in mid-way.
fn read_pair<P: PairList>(list: &P, from: &mut ByteReader<'_>) -> Result<(P::Key, u64), StateFault>
    ensures agrees { Agrees (λ pair. (P.value_of pair.0, pair.1)) (pair_at P.value_at (P.below list.now) (P.most list.now) (P.pairs list.now) from.old) result from.new }
    ensures ok { IfOk result (λ pair. from.old ≡ tagged_bytes (P.value_of pair.0) ++ (to_be_bytes w64 pair.1 ++ from.new)) }
    ensures legal { IfOk result (λ pair. P.legal (P.value_of pair.0)) }
    ensures behind { IfOk result (λ pair. comes_behind (P.below list.now) (last_kept (P.pairs list.now)) (P.value_of pair.0) ≡ true) }
    ensures counted { IfOk result (λ pair. is_count (P.most list.now) (P.pairs list.now) pair.1 ≡ true) }
{
    let key = read_behind(list, from)?;
    let count = read_count(list, from)?;
    Ok((key, count))
}

/// Takes a value that may stand behind the others. A refusal may leave the reader in mid-way.
fn read_behind<P: PairList>(list: &P, from: &mut ByteReader<'_>) -> Result<P::Key, StateFault>
    ensures agrees { Agrees P.value_of (behind_at P.value_at (P.below list.now) (P.pairs list.now) from.old) result from.new }
    ensures ok { IfOk result (λ key. from.old ≡ tagged_bytes (P.value_of key) ++ from.new) }
    ensures legal { IfOk result (λ key. P.legal (P.value_of key)) }
    ensures behind { IfOk result (λ key. comes_behind (P.below list.now) (last_kept (P.pairs list.now)) (P.value_of key) ≡ true) }
{
    let key = list.read_key(from)?;
    if list.is_behind(&key) {
        Ok(key)
    } else {
        Err(StateFault::Unfit)
    }
}

/// Takes how often a value more is there. A refusal may leave the reader in mid-way.
fn read_count<P: PairList>(list: &P, from: &mut ByteReader<'_>) -> Result<u64, StateFault>
    ensures agrees { Agrees (λ count. count) (count_at (P.most list.now) (P.pairs list.now) from.old) result from.new }
    ensures ok { IfOk result (λ count. from.old ≡ to_be_bytes w64 count ++ from.new) }
    ensures counted { IfOk result (λ count. is_count (P.most list.now) (P.pairs list.now) count ≡ true) }
{
    let count = from.u64()?;
    if count == 0 || list.room() < count {
        return Err(StateFault::Unfit);
    }
    Ok(count)
}
