// Writing a store over a lent area: planned group by group, then written. Area, plans and output are lent, since there is no heap.
#![tactic(auto)]

ghost use Rattle.std.specs.Prelude.{◌≡◌, ◌+◌, ◌*◌, ◌^◌, ◌≤◌, ◌<◌, length};
ghost use Rattle.std.proofs.lemmas.List.Edits.{sets};
ghost use Rattle.slope.specs.Slope.{best_slope};
ghost use Rattle.group_write.specs.Group.{blocks_of};
ghost use Rattle.store.specs.Store.{group_count, group_record, group_addrs, store_bytes};
ghost use Rattle.store.specs.Plans.{group_plan, plans, StandsAt};
ghost use Rattle.store.specs.Facts.{GroupLenOk, StoreArea};

use group_write::AreaGroup;
use layout::META_LEN;
use slope::Slope;
use store::grouping::Grouping;

// The numbers that are kept of a group's plan; group_write's `planned_block` says what a struct in their place costs.
const PLAN_LEN: usize = 2;

// Plans group g. Returns how many bytes its bits take.
pub fn plan_group(group: &AreaGroup, g: usize, kept: &mut [u64]) -> usize
    requires { 2 * g + 2 ≤ length kept.old }
    ensures { (result ≡ length (group_addrs best_slope (blocks_of group.now)))
        × (kept.new ≡ sets kept.old (2 * g) (group_plan best_slope (blocks_of group.now))) }
{
    let meta = group.plan_block(0);
    let range = Slope {
        slope: meta.range_start_slope,
        nbits: meta.range_start_nbits,
    };
    let ordinal = Slope {
        slope: meta.first_ordinal_slope,
        nbits: meta.first_ordinal_nbits,
    };
    let at = PLAN_LEN * g;
    kept[at] = range.packed();
    kept[at + 1] = ordinal.packed();
    meta.addr_len()
}

// Where a group is written: its record from `meta_at` on and its bits from `at` on, which is `offset` among all address bytes.
#[derive(Clone, Copy)]
pub struct GroupPlace {
    pub meta_at: usize,
    pub at: usize,
    pub offset: usize,
    pub ghost apart: { meta_at + 36 ≤ at },
}

impl GroupPlace {
    // The place of group g of so many in a store, whose bits are `offset` among all address bytes.
    #[inline]
    pub fn new(g: usize, groups: usize, offset: usize) -> GroupPlace
        requires { (g < groups) × (8 + 36 * groups + offset < 2 ^ 64) }
        ensures { (result.meta_at ≡ 8 + 36 * g) × (result.at ≡ 8 + 36 * groups + offset) × (result.offset ≡ offset) }
    {
        GroupPlace {
            meta_at: 8 + META_LEN * g,
            at: 8 + META_LEN * groups + offset,
            offset,
        }
    }
}

// Writes group g, which was planned. Returns how many bytes its bits take. That plans stand in `kept` is a clause here, in `serialize` and
// in store_slice's and builder_finish's functions that write: each speaks of other plans (a group's, an area's, a writer's, a builder's),
// so that a struct that said so would serve one function.
pub fn write_group(
    group: &AreaGroup,
    g: usize,
    kept: &[u64],
    place: GroupPlace,
    out: &mut [u8],
) -> usize
    requires { StandsAt kept.now (2 * g) (group_plan best_slope (blocks_of group.now))
        × (place.at + length (group_addrs best_slope (blocks_of group.now)) ≤ length out.old) }
    ensures { (result ≡ length (group_addrs best_slope (blocks_of group.now)))
        × (out.new ≡ sets (sets out.old place.meta_at (group_record best_slope place.offset (blocks_of group.now))) place.at
        (group_addrs best_slope (blocks_of group.now))) }
{
    let plan = PLAN_LEN * g;
    let meta = group.planned_block(kept[plan], kept[plan + 1], place.offset as u64);
    meta.serialize(out, place.meta_at);
    group.flush_block(meta, &mut out[place.at..])
}

// The blocks of a store in a lent area: the n legal ones at its front, with `stride` numbers each, in groups of `group_len`. `plan` and
// `serialize` are loops, since each turn writes into what is lent: of a closure that did so a sum would know nothing. store_slice goes
// over its groups by itself: each is put into a window first, and a common loop would need a trait that lends it out of there.
#[derive(Clone, Copy)]
pub struct AreaStore<'a> {
    pub area: &'a [u64],
    pub stride: usize,
    pub n: usize,
    pub group_len: usize,
    pub ghost ok: { StoreArea area.now stride n × GroupLenOk group_len },
}

impl<'a> AreaStore<'a> {
    ghost use Rattle.store_write.specs.Blocks.{all_of, in_group};

    fn grouping(&self) -> Grouping
        ensures { (result.n ≡ self.now.n) × (result.group_len ≡ self.now.group_len) }
    {
        Grouping {
            n: self.n,
            group_len: self.group_len,
        }
    }

    // Group g.
    fn group(&self, g: usize) -> AreaGroup<'a>
        requires { self.now.group_len * g < self.now.n }
        ensures { blocks_of result ≡ in_group self.now g }
    {
        AreaGroup {
            area: self.area,
            stride: self.stride,
            first: self.group_len * g,
            count: self.grouping().blocks_in(g),
        }
    }

    // Plans all groups. Returns how many bytes the store takes.
    pub fn plan(&self, kept: &mut [u64]) -> usize
        requires { 2 * group_count self.now.group_len self.now.n ≤ length kept.old }
        ensures { (result ≡ length (store_bytes best_slope self.now.group_len (all_of self.now)))
            × (kept.new ≡ sets kept.old 0
            (plans best_slope self.now.group_len (group_count self.now.group_len self.now.n) (all_of self.now))) }
    {
        let groups = self.grouping().group_count();
        let mut len: usize = 0;
        for g in 0..groups {
            len += plan_group(&self.group(g), g, kept);
        }
        8 + META_LEN * groups + len
    }

    // Writes the store, which was planned, from the front of `out` on. Returns its length.
    pub fn serialize(&self, kept: &[u64], out: &mut [u8]) -> usize
        requires { StandsAt kept.now 0 (plans best_slope self.now.group_len (group_count self.now.group_len self.now.n) (all_of self.now))
            × (length (store_bytes best_slope self.now.group_len (all_of self.now)) ≤ length out.old) }
        ensures value { result ≡ length (store_bytes best_slope self.now.group_len (all_of self.now)) }
        ensures out_after { out.new
            ≡ sets out.old 0 (store_bytes best_slope self.now.group_len (all_of self.now)) }
    {
        let groups = self.grouping().group_count();
        let metas = META_LEN * groups;
        serialize::serialize_u64(out, 0, metas as u64);
        let mut offset: usize = 0;
        for g in 0..groups {
            let place = GroupPlace::new(g, groups, offset);
            let len = write_group(&self.group(g), g, kept, place, out);
            offset += len;
        }
        8 + metas + offset
    }
}
