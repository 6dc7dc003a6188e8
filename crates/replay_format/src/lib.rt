// A list of calls and questions in bytes. The list and a place in it go together here, and stay two: nearly each reader reads at another
// place than its own, so that a pair of both would be made anew for it.
#![tactic(auto)]

ghost use Rattle.std.specs.Prelude.{Option, ◌≡◌, true, false, ℕ, ◌||◌, ◌+◌, ◌^◌, ◌≤◌, ◌<◌, eqb, length};
ghost use Rattle.std.specs.Prelude.{MatchOption};
ghost use Rattle.replay_format.specs.Format.{string_len, string_at, within, call_len, question_len, behind};
ghost use Rattle.replay_format.specs.Format.{counts_at, list_terms, list_version, calls_from, questions_from};
ghost use Rattle.replay_format.specs.Format.{call_count, question_count, head_bad, list_bad};
ghost use Rattle.replay_format.specs.Format.{added_block, call_at, question_at};
ghost use Rattle.replay_format.specs.Read.{call_of, question_of};
ghost use Rattle.replay_format.specs.Tags.{Decodes, TagAt, IsLen, IsItem};

use group::BlockAddr;

// What an item of the list is, and the byte that it begins with: two calls, then the questions.
#[derive(Clone, Copy, Debug, PartialEq, Eq)]
pub enum Tag {
    Add = 0,
    Shorten = 1,
    ById = 2,
    ByOrdinal = 3,
    ByKey = 4,
    AddressByKey = 5,
    Separator = 6,
    Mark = 7,
}

impl Tag {
    // The tag of the item at `at`, if there is one.
    pub fn at(list: &[u8], at: usize) -> Option<Tag>
        ensures { TagAt list.now at result }
    {
        Tag::try_from(*list.get(at)?).ok()
    }
}

// A byte that no item begins with.
#[derive(Clone, Copy, Debug, PartialEq, Eq)]
pub struct UnknownTag(pub u8);

impl TryFrom<u8> for Tag {
    type Error = UnknownTag;

    ghost try_from_gives = { Decodes };

    fn try_from(byte: u8) -> Result<Tag, UnknownTag> {
        match byte {
            0 => Ok(Tag::Add),
            1 => Ok(Tag::Shorten),
            2 => Ok(Tag::ById),
            3 => Ok(Tag::ByOrdinal),
            4 => Ok(Tag::ByKey),
            5 => Ok(Tag::AddressByKey),
            6 => Ok(Tag::Separator),
            7 => Ok(Tag::Mark),
            _ => Err(UnknownTag(byte)),
        }
    }
}

// A call with its arguments.
#[derive(Clone, Copy)]
pub enum Call<'a> {
    Add(&'a [u8], BlockAddr),
    ShortenLast(&'a [u8]),
}

// What is asked of the finished index.
#[derive(Clone, Copy)]
pub enum Question<'a> {
    ById(u64),
    ByOrdinal(u64),
    ByKey(&'a [u8]),
    AddressByKey(&'a [u8]),
    SeparatorOf(u64),
    MarkOf(u64, &'a [u8]),
}

// How many bytes the settings' length takes, the settings themselves, and both counts.
const SETTINGS_LEN_LEN: usize = 4;

const SETTINGS_LEN: usize = 16;

const COUNTS_LEN: usize = 8;

// The byte string whose length stands at `at`.
pub fn string(list: &[u8], at: usize) -> &[u8]
    requires { at + 4 + string_len list.now at ≤ length list.now }
    ensures { result.now ≡ string_at list.now at }
{
    let from = at + 4;
    &list[from..from + directory_read::number(list, at)]
}

// `len` where the list has as many bytes from `at` on.
fn if_within(list: &[u8], at: usize, len: usize) -> Option<usize>
    requires { (at ≤ length list.now) × (0 < len) }
    ensures { IsItem list.now at result (within list.now at len) }
{
    (len <= list.len() - at).then_some(len)
}

// How many bytes an item takes whose string's length stands `head` bytes behind its tag, if it is whole.
fn with_string(list: &[u8], at: usize, head: usize) -> Option<usize>
    requires { (at ≤ length list.now) × (head ≤ 25) }
    ensures { IsItem list.now at result (within list.now at (4 + head + string_len list.now (at + head))) }
{
    let fixed = if_within(list, at, 4 + head)?;
    if_within(list, at, fixed + directory_read::number(list, at + head))
}

// How many bytes the call at `at` takes, if there is one.
#[tactic(auto, unfolding(crate::specs::Format::call_len))]
pub fn call_len(list: &[u8], at: usize) -> Option<usize>
    ensures { IsItem list.now at result (call_len list.now at) }
{
    match Tag::at(list, at)? {
        Tag::Add => with_string(list, at, 25),
        Tag::Shorten => with_string(list, at, 1),
        _ => None,
    }
}

// The block of the add at `at`.
fn block(list: &[u8], at: usize) -> BlockAddr
    requires { at + 25 ≤ length list.now }
    ensures { result ≡ added_block list.now at }
{
    BlockAddr::from([
        serialize::deserialize_u64(list, at + 1),
        serialize::deserialize_u64(list, at + 9),
        serialize::deserialize_u64(list, at + 17),
    ])
}

impl<'a> Call<'a> {
    // The call at `at`.
    #[tactic(auto, unfolding(crate::specs::Format::call_len, crate::specs::Format::call_at))]
    pub fn at(list: &'a [u8], at: usize) -> Call<'a>
        requires { 0 < call_len list.now at }
        ensures { call_of result ≡ call_at list.now at }
    {
        match Tag::at(list, at) {
            Some(Tag::Add) => Call::Add(string(list, at + 25), block(list, at)),
            _ => Call::ShortenLast(string(list, at + 1)),
        }
    }
}

// How many bytes the question at `at` takes, if there is one.
#[tactic(auto, unfolding(crate::specs::Format::question_len))]
pub fn question_len(list: &[u8], at: usize) -> Option<usize>
    ensures { IsItem list.now at result (question_len list.now at) }
{
    match Tag::at(list, at)? {
        Tag::ById | Tag::ByOrdinal | Tag::Separator => if_within(list, at, 9),
        Tag::ByKey | Tag::AddressByKey => with_string(list, at, 1),
        Tag::Mark => with_string(list, at, 9),
        Tag::Add | Tag::Shorten => None,
    }
}

impl<'a> Question<'a> {
    // The question at `at`.
    #[tactic(auto, unfolding(crate::specs::Format::question_len, crate::specs::Format::question_at))]
    pub fn at(list: &'a [u8], at: usize) -> Question<'a>
        requires { 0 < question_len list.now at }
        ensures { question_of result ≡ question_at list.now at }
    {
        match Tag::at(list, at) {
            Some(Tag::ById) => Question::ById(serialize::deserialize_u64(list, at + 1)),
            Some(Tag::ByOrdinal) => Question::ByOrdinal(serialize::deserialize_u64(list, at + 1)),
            Some(Tag::ByKey) => Question::ByKey(string(list, at + 1)),
            Some(Tag::AddressByKey) => Question::AddressByKey(string(list, at + 1)),
            Some(Tag::Separator) => Question::SeparatorOf(serialize::deserialize_u64(list, at + 1)),
            _ => Question::MarkOf(
                serialize::deserialize_u64(list, at + 1),
                string(list, at + 9),
            ),
        }
    }
}

// Behind `count` items from `from` on, whose lengths `item_len` tells, if each of them is there. A loop: `try_fold`
// would take a closure around the closure that it is given.
#[tactic(auto, using(crate::proofs::Items::behind_none, crate::proofs::Items::behind_next, crate::proofs::Items::behind_missing))]
fn behind_items<F: Fn(usize) -> Option<usize>>(
    from: usize,
    count: usize,
    item_len: F,
) -> Option<usize>
    requires callable { F.IsAlwaysCallable item_len }
    requires inside { (at : ℕ) (len : ℕ) → at < 2 ^ 64 → F.post item_len at (Some len) → at + len < 2 ^ 64 }
    requires positive { 0 < from }
    ensures { (len : ℕ → ℕ) → ((at : ℕ) (r : Option ℕ) → at < 2 ^ 64 → F.post item_len at r → IsLen r (len at))
        → IsLen result (behind len from count) }
{
    let mut at = from;
    for _done in 0..count {
        at += item_len(at)?;
    }
    Some(at)
}

// A list whose head is there, with settings that are known: how many calls and questions follow, and from where on.
#[derive(Clone, Copy)]
pub struct Head<'a> {
    pub list: &'a [u8],
    pub ghost good: { head_bad list.now ≡ false },
}

impl<'a> Head<'a> {
    // The list with its head, if it has one.
    #[tactic(auto, unfolding(crate::specs::Format::head_bad))]
    pub fn read(list: &'a [u8]) -> Option<Head<'a>>
        ensures { MatchOption result (head_bad list.now ≡ true) (λ head. head.list.now ≡ list.now) }
    {
        let counts_at = SETTINGS_LEN_LEN + directory_read::number(list.get(..SETTINGS_LEN_LEN)?, 0);
        if counts_at != SETTINGS_LEN_LEN + SETTINGS_LEN || list.len() < counts_at + COUNTS_LEN {
            return None;
        }
        Some(Head { list })
    }

    // The number of terms that the list's index is opened with.
    #[tactic(auto, unfolding(crate::specs::Format::head_bad))]
    pub fn terms(&self) -> u64
        ensures { result ≡ list_terms self.now.list.now }
    {
        serialize::deserialize_u64(self.list, SETTINGS_LEN_LEN)
    }

    // The version that the list's index is finished and opened with.
    #[tactic(auto, unfolding(crate::specs::Format::head_bad))]
    pub fn version(&self) -> u64
        ensures { result ≡ list_version self.now.list.now }
    {
        serialize::deserialize_u64(self.list, SETTINGS_LEN_LEN + 8)
    }

    // Where the counts stand: after the settings.
    #[tactic(auto, unfolding(crate::specs::Format::head_bad))]
    fn counts_at(&self) -> usize
        ensures { (result ≡ counts_at self.now.list.now) × (result + 8 ≤ length self.now.list.now) }
    {
        SETTINGS_LEN_LEN + directory_read::number(self.list, 0)
    }

    // Where the first call stands.
    pub fn calls_from(&self) -> usize
        ensures { (result ≡ calls_from self.now.list.now) × (result ≤ length self.now.list.now) }
    {
        self.counts_at() + COUNTS_LEN
    }

    // How many calls.
    pub fn call_count(&self) -> usize
        ensures { (result ≡ call_count self.now.list.now) × (result < 2 ^ 32) }
    {
        directory_read::number(self.list, self.counts_at())
    }

    // How many questions.
    pub fn question_count(&self) -> usize
        ensures { (result ≡ question_count self.now.list.now) × (result < 2 ^ 32) }
    {
        directory_read::number(self.list, self.counts_at() + 4)
    }
}

// A whole list: its head, each call and question that the head counts, and nothing behind them.
#[derive(Clone, Copy)]
pub struct List<'a> {
    pub head: Head<'a>,
    // Where the first question stands.
    pub questions_at: usize,
    pub ghost counted: { questions_at ≡ questions_from head.list.now },
    pub ghost whole: { list_bad head.list.now ≡ false },
}

impl<'a> List<'a> {
    // The list, if the bytes are one.
    #[tactic(auto, unfolding(crate::specs::Format::list_bad))]
    pub fn read(list: &'a [u8]) -> Option<List<'a>>
        ensures { MatchOption result (list_bad list.now ≡ true) (λ whole. whole.head.list.now ≡ list.now) }
    {
        let head = Head::read(list)?;
        let questions_at = behind_items(head.calls_from(), head.call_count(), |at| {
            call_len(list, at)
        })?;
        let end = behind_items(
            questions_at,
            head.question_count(),
            |at| question_len(list, at),
        )?;
        // No `then_some`: only where the test holds can a `List` be made, which keeps that it does.
        if end != list.len() {
            return None;
        }
        Some(List { head, questions_at })
    }
}
