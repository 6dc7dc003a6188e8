// Lookups whose record may not belong to the file: whether an answer is one that is allowed.
use crate::lookup::Lookup;
use layout::refusals::Refusal;

// Whether an answer is a good one, the call's own row, or that record and file don't belong together.
fn is_allowed<T: Drop, F: FnOnce(T) -> bool>(
    answer: Result<T, Refusal>,
    row: Refusal,
    is_good: F,
) -> bool
    requires { F.IsAlwaysCallable is_good }
{
    answer.map_or_else(
        |refusal| refusal == row || refusal == Refusal::Unfit,
        is_good,
    )
}

impl Lookup<'_> {
    // ID
    pub fn may_find_id(self) -> bool {
        let [id] = *self.given else {
            return false;
        };
        let n = self.opened.block_count() as u64;
        is_allowed(
            self.opened.get_block(id),
            Refusal::UnknownId,
            |addr| id < n && !addr.numbers_bad(),
        )
    }

    // ORDINAL: it is found only below the number of terms, and each row of its own only where it holds. A match, since there are two.
    pub fn may_find_ordinal(self) -> bool {
        let [ord] = *self.given else {
            return false;
        };
        let opened = self.opened;
        let first = opened.first_ordinal();
        match opened.locate_with_ord(ord) {
            Ok(found) => {
                ord < opened.terms()
                    && found.block_id < opened.block_count()
                    && !found.addr.numbers_bad()
            }
            Err(Refusal::OrdinalBelow) => first.is_some_and(|first| ord < first),
            Err(Refusal::OrdinalAbove) => {
                opened.terms() <= ord && first.is_some_and(|first| first <= ord)
            }
            Err(refusal) => refusal == Refusal::Unfit,
        }
    }

    pub fn may_find_key(self) -> bool {
        let n = self.opened.block_count();
        let answer = self.opened.locate_with_key(self.key);
        self.given.is_empty() && is_allowed(answer, Refusal::KeyAbove, |id| id < n)
    }

    pub fn may_find_address(self) -> bool {
        let n = self.opened.block_count();
        let answer = self.opened.get_block_with_key(self.key);
        self.given.is_empty()
            && is_allowed(
                answer,
                Refusal::KeyAbove,
                |found| found.block_id < n && !found.addr.numbers_bad(),
            )
    }

    // ID: the separator is some part of the bytes.
    pub fn may_find_separator(self) -> bool {
        let [id] = *self.given else {
            return false;
        };
        let n = self.opened.block_count() as u64;
        let place = self.opened.separator_place(id);
        (place.is_none() || id < n) && self.opened.has_separator(id, place)
    }
}
