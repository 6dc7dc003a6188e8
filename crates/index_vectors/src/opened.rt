// The file that the lines are about, and the record that lookups use: its own, or one that may not belong to it.
use crate::rule;
use group::BlockAddr;
use index::SSTableIndexV3;
use layout::refusals::Refusal;
use std::alloc::{AllocError, Global};
use store::Located;
use vector_parts::told::is_told;

// The most bytes that a change replaces.
const LONGEST: usize = 128;

// Where a group record has its first ordinal.
const FIRST_ORDINAL: usize = 16;

#[derive(Drop)]
pub struct Opened {
    file: Vec<u8>,
    record: Option<SSTableIndexV3>,
}

impl Opened {
    pub fn new(alloc: Global) -> Opened {
        Opened {
            file: Vec::new(alloc),
            record: None,
        }
    }

    // TERMS NO N DIRECTORY LEN RECORDS LEN ADDRESSES LEN TERMS VERSION: the file is opened with this version and so many terms, and
    // answers what follows them.
    fn opens(&mut self, version: u64, given: &[u64]) -> bool {
        let [terms, due @ ..] = given else {
            return false;
        };
        let answer = index_load::load(version, *terms, &self.file);
        self.record = answer.ok();
        is_told(due, answer.map(|opened| <[u64; 9]>::from(opened)))
    }

    // VERSION TERMS NO N ..: the file as it is
    pub fn opens_again(&mut self, given: &[u64]) -> bool {
        let [version, opening @ ..] = given else {
            return false;
        };
        self.opens(*version, opening)
    }

    // VERSION TERMS NO N .., and the file. Here and below it takes the room of the one before.
    pub fn opens_file(&mut self, given: &[u64], content: &[u8]) -> Result<bool, AllocError> {
        self.file.clear();
        self.file.extend_from_slice(content)?;
        Ok(self.opens_again(given))
    }

    // VERSION COUNT TERMS NO N ..: the file by the rule
    pub fn opens_by_rule(&mut self, given: &[u64]) -> Result<bool, AllocError> {
        let [version, count, opening @ ..] = given else {
            return Ok(false);
        };
        rule::put_file(&mut self.file, *version, *count)?;
        Ok(self.opens(*version, opening))
    }

    // Exchanges the file's bytes from `at` on for the part's. False where the file doesn't have them.
    fn exchange(&mut self, at: usize, part: &mut [u8]) -> bool {
        let Some((_, rest)) = self.file.split_at_mut_checked(at) else {
            return false;
        };
        let Some((own, _)) = rest.split_at_mut_checked(part.len()) else {
            return false;
        };
        own.swap_with_slice(part);
        true
    }

    // VERSION AT TERMS NO N .., and the bytes in place of the file's own from AT on. They are put back.
    pub fn opens_changed(
        &mut self,
        alloc: Global,
        given: &[u64],
        part: &[u8],
    ) -> Result<bool, AllocError> {
        let [version, at, terms, due @ ..] = given else {
            return Ok(false);
        };
        let at = *at as usize;
        let mut other = part.to_vec(alloc)?;
        if other.len() > LONGEST || !self.exchange(at, &mut other) {
            return Ok(false);
        }
        let answer = index_load::load(*version, *terms, &self.file);
        Ok(
            self.exchange(at, &mut other)
                && is_told(due, answer.map(|opened| <[u64; 9]>::from(opened))),
        )
    }

    // N DIRECTORY LEN RECORDS LEN ADDRESSES LEN TERMS VERSION: this record from here on. This and `block_count` are as in
    // pattern_vectors: vectors, which both use, doesn't know index.
    pub fn sets_record(&mut self, given: &[u64]) -> bool {
        let Ok(numbers) = <[u64; 9]>::try_from(given) else {
            return false;
        };
        self.record = Some(SSTableIndexV3::from(numbers));
        true
    }

    // How many blocks the record says; 0 where there is none, so that no id is below it.
    pub fn block_count(&self) -> usize {
        self.record.map_or(0, |record| record.n)
    }

    // How many terms the record says; 0 where there is none, so that no ordinal is below it.
    pub fn terms(&self) -> u64 {
        self.record.map_or(0, |record| record.terms)
    }

    // The first ordinal in the first group record that the record names; nothing where the file ends before it.
    pub fn first_ordinal(&self) -> Option<u64> {
        let records = self.file.get(self.record?.metas..)?;
        let bytes = records.get(FIRST_ORDINAL..)?.first_chunk()?;
        Some(u64::from_le_bytes(*bytes))
    }

    // The record. A file that was refused has none, and belongs to no record, as row 20 says.
    fn record(&self) -> Result<SSTableIndexV3, Refusal> {
        self.record.ok_or(Refusal::Unfit)
    }

    pub fn get_block(&self, id: u64) -> Result<BlockAddr, Refusal> {
        index_lookup::get_block(self.record()?, &self.file, id)
    }

    pub fn locate_with_ord(&self, ord: u64) -> Result<Located, Refusal> {
        index_lookup::locate_with_ord(self.record()?, &self.file, ord)
    }

    pub fn locate_with_key(&self, key: &[u8]) -> Result<usize, Refusal> {
        index_lookup::locate_with_key(self.record()?, &self.file, key)
    }

    pub fn get_block_with_key(&self, key: &[u8]) -> Result<Located, Refusal> {
        index_lookup::get_block_with_key(self.record()?, &self.file, key)
    }

    pub fn locate_with_keys(
        &self,
        words: &[u64],
        keys: &[u8],
        ids: &mut [u64],
    ) -> Result<(), Refusal> {
        batch::locate_with_keys(self.record()?, &self.file, words, keys, ids)
    }

    pub fn separator_place(&self, id: u64) -> Option<(usize, usize)> {
        index_lookup::separator_place(self.record?, &self.file, id)
    }

    fn separator(&self, id: u64) -> Option<&[u8]> {
        Some(index_lookup::separator(self.record?, &self.file, id))
    }

    // Whether a block's separator is the part of the file at this place; an empty one where it has none.
    pub fn has_separator(&self, id: u64, place: Option<(usize, usize)>) -> bool {
        let part = self.separator(id);
        place.map_or(
            part.is_none_or(|part| part.is_empty()),
            |(offset, len)| self.file.get(offset..).and_then(|rest| rest.get(..len)) == part,
        )
    }
}
