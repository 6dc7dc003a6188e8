// The index over lent bytes: `SSTableIndexV3` of src/index/v3.rs, and what its calls answer.
#![tactic(auto)]

ghost use Rattle.std.specs.Prelude.{◌≡◌};
ghost use Rattle.store.specs.Facts.{GroupLenOk};
ghost use Rattle.index.specs.Opening.{group_of};
ghost use Rattle.index.specs.Words.{opened_words, opened_at};

use layout::versions;

// An opened index: how many blocks, where its parts stand in the bytes, how many terms the file has, and its version. Nine numbers, since
// the C interface hands them out and back. The Rust's name stays, though the record is that of a version 4 too.
#[derive(Clone, Copy, Debug, Default, PartialEq, Eq)]
pub struct SSTableIndexV3 {
    pub n: usize,
    pub directory: usize,
    pub directory_len: usize,
    pub metas: usize,
    pub metas_len: usize,
    pub addrs: usize,
    pub addrs_len: usize,
    pub terms: u64,
    pub version: u64,
}

impl SSTableIndexV3 {
    // The blocks of a group: as the record's version has them.
    #[inline]
    pub fn group_len(self) -> usize
        ensures { (result ≡ group_of self) × GroupLenOk result }
    {
        versions::group_len(self.version)
    }
}

// The numbers of a record, in its order.
impl From<SSTableIndexV3> for [u64; 9] {
    ghost from_gives = { λ opened words. words ≡ opened_words opened };

    #[inline]
    fn from(opened: SSTableIndexV3) -> [u64; 9] {
        [
            opened.n as u64,
            opened.directory as u64,
            opened.directory_len as u64,
            opened.metas as u64,
            opened.metas_len as u64,
            opened.addrs as u64,
            opened.addrs_len as u64,
            opened.terms,
            opened.version,
        ]
    }
}

// The record that nine numbers say.
impl From<[u64; 9]> for SSTableIndexV3 {
    ghost from_gives = { λ words opened. opened ≡ opened_at words };

    #[inline]
    fn from(words: [u64; 9]) -> SSTableIndexV3 {
        let [
            n,
            directory,
            directory_len,
            metas,
            metas_len,
            addrs,
            addrs_len,
            terms,
            version,
        ] = words;
        SSTableIndexV3 {
            n: n as usize,
            directory: directory as usize,
            directory_len: directory_len as usize,
            metas: metas as usize,
            metas_len: metas_len as usize,
            addrs: addrs as usize,
            addrs_len: addrs_len as usize,
            terms,
            version,
        }
    }
}
