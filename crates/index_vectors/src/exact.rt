// Lookups in a file as it was opened: whether the answers are those of the list.
use crate::lookup::Lookup;
use store::Located;
use vector_parts::told::is_told;

// A function: both types are other crates'.
fn numbers(located: Located) -> [u64; 4] {
    let [start, end, first_ordinal] = <[u64; 3]>::from(located.addr);
    [located.block_id as u64, start, end, first_ordinal]
}

impl Lookup<'_> {
    // ID NO START END ORD
    pub fn finds_id(self) -> bool {
        let [id, due @ ..] = self.given else {
            return false;
        };
        is_told(
            due,
            self.opened
                .get_block(*id)
                .map(|addr| <[u64; 3]>::from(addr)),
        )
    }

    // ORDINAL NO ID START END ORD
    pub fn finds_ordinal(self) -> bool {
        let [ord, due @ ..] = self.given else {
            return false;
        };
        is_told(due, self.opened.locate_with_ord(*ord).map(numbers))
    }

    // NO ID
    pub fn finds_key(self) -> bool {
        let answer = self.opened.locate_with_key(self.key);
        is_told(self.given, answer.map(|id| [id as u64]))
    }

    // NO ID START END ORD
    pub fn finds_address(self) -> bool {
        let answer = self.opened.get_block_with_key(self.key);
        is_told(self.given, answer.map(numbers))
    }

    // ID FOUND OFFSET LEN: the place, and the part that stands there
    pub fn finds_separator(self) -> bool {
        let [id, due @ ..] = self.given else {
            return false;
        };
        let place = self.opened.separator_place(*id);
        let numbers = place.map_or([0; 3], |(offset, len)| [1, offset as u64, len as u64]);
        due == numbers.as_slice() && self.opened.has_separator(*id, place)
    }
}
