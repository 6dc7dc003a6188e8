// The list's questions, asked of the opened index.
ghost use Rattle.std.specs.Prelude.{◌≡◌, Result, List, ℕ, ◌+◌, ◌*◌, ◌≤◌, ◌<◌, length, get_or};
ghost use Rattle.layout.specs.declared.refusals.Refusal.{Refusal};
ghost use Rattle.builder.specs.Index.{Settings};
ghost use Rattle.machine.specs.Plain.{Entry};
ghost use Rattle.index.specs.declared.SSTableIndexV3.{SSTableIndexV3};
ghost use Rattle.replay_format.specs.Format.{question_len, question_at, items, behind, question_count, list_terms, list_version};
ghost use Rattle.replay_format.specs.Read.{question_of};
ghost use Rattle.replay_cells.specs.Cells.{cells_of};
ghost use Rattle.replay.specs.Replay.{MarkAnswer, AnswerTo, AnswerIn};
ghost use Rattle.replay.specs.Asked.{Indexed, OpenedAs, CheckedAs, QuestionsAnswered, OpeningAnswered};

use index::SSTableIndexV3;
use layout::MAX_BLOCKS;
use layout::refusals::{self, Refusal};
use replay_cells::{Cells, WIDTH};
use replay_format::{Head, Question};

// Mark i; 0 where there is none, since the answer has a number in its place.
fn mark_at(marks: &[u8], i: u64) -> u64
    ensures { result ≡ get_or marks.now i 0 }
{
    marks.get(i as usize).map_or(0, |mark| u64::from(*mark))
}

// An index that opened, and its bytes.
#[derive(Clone, Copy)]
struct Index<'a> {
    opened: SSTableIndexV3,
    data: &'a [u8],
}

impl Index<'_> {
    // Lists the automaton's blocks: how many, and mark i. A match, here and in `answer_in`: with `map_or_else` the check found no proof.
    fn mark(&self, i: u64, automaton: &[u8]) -> Cells
        ensures { (S : Settings) (terms : ℕ) (es : List Entry) → Indexed S terms es self.now.data.now self.now.opened
            → MarkAnswer es i automaton.now (cells_of result) }
    {
        // A fixed area for every index, since the library has no heap.
        let mut marks = [0u8; MAX_BLOCKS];
        match listing::get_block_for_automaton(self.opened, self.data, automaton, &mut marks) {
            Ok(count) => Cells([0, count as u64, mark_at(&marks, i), 0, 0]),
            Err(refusal) => Cells::from(refusal),
        }
    }

    // The answer to a question.
    fn answer(&self, question: Question) -> Cells
        ensures { (S : Settings) (terms : ℕ) (es : List Entry) → Indexed S terms es self.now.data.now self.now.opened
            → AnswerTo S terms es (question_of question.entry) (cells_of result) }
    {
        let (opened, data) = (self.opened, self.data);
        match question {
            Question::ById(id) => Cells::answered(index_lookup::get_block(opened, data, id)),
            Question::ByOrdinal(ord) => Cells::answered(index_lookup::locate_with_ord(
                opened, data, ord,
            )),
            Question::ByKey(key) => Cells::answered(index_lookup::locate_with_key(
                opened, data, key,
            )),
            Question::AddressByKey(key) => {
                Cells::answered(index_lookup::get_block_with_key(opened, data, key))
            }
            Question::SeparatorOf(id) => Cells::from(index_lookup::separator_place(
                opened, data, id,
            )),
            Question::MarkOf(block, automaton) => self.mark(block, automaton),
        }
    }
}

// The answer to a question; where the opening was refused, its number.
fn answer_in(question: Question, loaded: Result<SSTableIndexV3, Refusal>, data: &[u8]) -> Cells
    ensures { (k : ℕ) (S : Settings) (terms : ℕ) (es : List Entry) → OpenedAs k S terms es «data».now loaded
        → AnswerIn k S terms es (question_of question.entry) (cells_of result) }
{
    match loaded {
        Ok(opened) => Index { opened, data }.answer(question),
        Err(refusal) => Cells::from(refusal),
    }
}

// Asks the head's questions, which stand from `from` on, and writes their answers behind the first `first`. A loop,
// since a question stands where the one before it ends. The head and where the questions begin, here and below, and not a List: that
// would ask that nothing stands behind the questions, too.
fn ask_questions(
    head: &Head,
    from: usize,
    loaded: Result<SSTableIndexV3, Refusal>,
    data: &[u8],
    answers: &mut [u64],
    first: usize,
)
    requires there { behind (question_len head.now.list.now) from (question_count head.now.list.now) ≡ 0 → ⊥ }
    requires room { 5 * (first + question_count head.now.list.now) ≤ length answers.old }
    ensures { (k : ℕ) (S : Settings) (terms : ℕ) (es : List Entry) → OpenedAs k S terms es «data».now loaded
        → QuestionsAnswered k S terms es (items (question_len head.now.list.now) (question_at head.now.list.now) from
        (question_count head.now.list.now)) first answers.old answers.new }
{
    let list = head.list;
    let mut at = from;
    for i in 0..head.question_count() {
        answer_in(Question::at(list, at), loaded, data).write(answers, WIDTH * (first + i));
        at += replay_format::question_len(list, at).unwrap();
    }
}

// Opens the bytes with the list's version and number of terms and asks its questions of them. The opening, with the number of the check
// beside its own, is answer `first`.
pub fn open_list(head: &Head, from: usize, data: &[u8], answers: &mut [u64], first: usize)
    requires there { behind (question_len head.now.list.now) from (question_count head.now.list.now) ≡ 0 → ⊥ }
    requires room { 5 * (first + 1 + question_count head.now.list.now) ≤ length answers.old }
    ensures { (k c : ℕ) (S : Settings) (es : List Entry)
        → CheckedAs k c S (list_version head.now.list.now) (list_terms head.now.list.now) es «data».now
        → OpeningAnswered k c S (list_terms head.now.list.now) es
        (items (question_len head.now.list.now) (question_at head.now.list.now) from (question_count head.now.list.now))
        first answers.old answers.new }
{
    let loaded = index_load::load(head.version(), head.terms(), data);
    let opening = u64::from(refusals::number(loaded));
    let check = u64::from(refusals::number(canonical::check_canonical(head.version(), data)));
    Cells([opening, check, 0, 0, 0]).write(answers, WIDTH * first);
    ask_questions(head, from, loaded, data, answers, first + 1);
}
