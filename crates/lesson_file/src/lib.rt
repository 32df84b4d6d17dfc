// Reading lesson files (document 01, 'Lesson files and the lesson program'): a cursor by value.
#![tactic(auto)]

ghost use Rattle.std.specs.Prelude.{◌≡◌, ◌+◌, ◌*◌, ◌≤◌, length};
ghost use Rattle.buffers.specs.Overwrite.{overwrite};
ghost use Rattle.checks.specs.Checks.{checked, verdict};
ghost use Rattle.checks.specs.Answers.{reading};
ghost use Rattle.lesson_file.specs.Records.{number, words_from, marked, whole, record_checks, parameters_at, parameters_checks, y_first, ordered_checks, lists_at, lists_checks, word_count, words_checks, strings_checks, layout_from, layout_read};

use checks::{Reason, Refusal};
use residue::Word;

// Where a record begins.
#[derive(Clone, Copy)]
pub struct Cursor {
    pub at: usize,
}

// What PM says.
#[derive(Clone, Copy)]
pub struct Parameters {
    pub n: usize,
    pub k: usize,
    pub q: Word,
}

// Where XB and YB begin, and what follows them.
#[derive(Clone, Copy)]
pub struct Lists {
    pub x: usize,
    pub y: usize,
    pub next: Cursor,
}

// A sample's parameters, its lists, behind which RW begins, the count of RW's words, and what follows them.
#[derive(Clone, Copy)]
pub struct Layout {
    pub parameters: Parameters,
    pub lists: Lists,
    pub count: usize,
    pub next: Cursor,
}

// The marks of the records.
const PM: [u8; 2] = [b'P', b'M'];

const XB: [u8; 2] = [b'X', b'B'];

const YB: [u8; 2] = [b'Y', b'B'];

const RW: [u8; 2] = [b'R', b'W'];

// The most words that RW may have.
pub const MOST_WORDS: usize = 1792;

// A two-byte number, low byte first.
#[tactic(auto, unfolding(crate::specs::Records::number))]
fn number_at(file: &[u8], at: usize) -> u16
    requires { at + 2 ≤ length file.now }
    ensures { result ≡ number file.now at }
{
    u16::from_le_bytes([file[at], file[at + 1]])
}

#[tactic(auto, unfolding(crate::specs::Records::marked))]
fn has_mark(file: &[u8], at: usize, mark: [u8; 2]) -> bool
    requires { at + 2 ≤ length file.now }
    ensures { result ≡ marked file.now at mark }
{
    file[at] == mark[0] && file[at + 1] == mark[1]
}

// Whether the file has `size` bytes from the position on, which may lie anywhere.
fn has_bytes(file: &[u8], at: usize, size: usize) -> bool
    ensures { result ≡ (whole file.now at size).holds }
{
    at <= file.len() && size <= file.len() - at
}

// A whole mark, this one, and all the bytes of the record.
#[tactic(auto, unfolding(checks::specs::Checks::verdict))]
fn check_record(file: &[u8], at: usize, mark: [u8; 2], size: usize) -> Result<(), Refusal>
    ensures { reading result ≡ checked (record_checks file.now at mark size) }
{
    if !has_bytes(file, at, 2) {
        return checks::refuse(Reason::CutShort.into(), at);
    }
    if !has_mark(file, at, mark) {
        return checks::refuse(Reason::Mark.into(), at);
    }
    if !has_bytes(file, at, size) {
        return checks::refuse(Reason::CutShort.into(), at);
    }
    Ok(())
}

// XB and YB, of which `first` begins at the position.
#[tactic(auto, unfolding(checks::specs::Checks::verdict))]
fn check_lists(
    file: &[u8],
    at: usize,
    n: usize,
    first: [u8; 2],
    second: [u8; 2],
) -> Result<(), Refusal>
    requires { n ≤ 8 }
    ensures { reading result ≡ checked (ordered_checks file.now at n first second) }
{
    let size = 2 + 2 * n;
    check_record(file, at, first, size)?;
    check_record(file, at + size, second, size)
}

// Whether YB comes first.
fn is_y_first(file: &[u8], at: usize) -> bool
    ensures { result ≡ y_first file.now at }
{
    has_bytes(file, at, 2) && has_mark(file, at, YB)
}

impl Cursor {
    // PM, put to checks 1, 2 and 3.
    #[tactic(auto, unfolding(checks::specs::Checks::verdict))]
    fn read_parameters(self, file: &[u8]) -> Result<Parameters, Refusal>
        ensures { reading result ≡ verdict (parameters_checks file.now self.at) (parameters_at file.now self.at) }
    {
        let at = self.at;
        check_record(file, at, PM, 6)?;
        let n = usize::from(file[at + 2]);
        let k = usize::from(file[at + 3]);
        let q = residue::from_u16(number_at(file, at + 4));
        checks::check_parameters(n, k, q).map_err(|r| Refusal { position: at, ..r })?;
        Ok(Parameters { n, k, q })
    }

    // XB and YB, in either order.
    #[tactic(auto, unfolding(checks::specs::Checks::verdict))]
    fn read_lists(self, file: &[u8], n: usize) -> Result<Lists, Refusal>
        requires { n ≤ 8 }
        ensures { reading result ≡ verdict (lists_checks file.now self.at n) (lists_at file.now self.at n) }
    {
        let at = self.at;
        let size = 2 + 2 * n;
        let y_first = is_y_first(file, at);
        let (first, second) = if y_first { (YB, XB) } else { (XB, YB) };
        check_lists(file, at, n, first, second)?;
        let behind = at + size;
        let (x, y) = if y_first { (behind, at) } else { (at, behind) };
        let next = Cursor { at: behind + size };
        Ok(Lists { x, y, next })
    }

    // RW: answers the count of its words.
    #[tactic(auto, unfolding(checks::specs::Checks::verdict))]
    fn read_words(self, file: &[u8]) -> Result<usize, Refusal>
        ensures { reading result ≡ verdict (words_checks file.now self.at) (word_count file.now self.at) }
    {
        let at = self.at;
        check_record(file, at, RW, 4)?;
        let count = usize::from(number_at(file, at + 2));
        if MOST_WORDS < count {
            return checks::refuse(Reason::WordLimit.into(), at);
        }
        if !has_bytes(file, at, 4 + 2 * count) {
            return checks::refuse(Reason::CutShort.into(), at);
        }
        Ok(count)
    }

    // XB, YB and RW, behind these parameters.
    #[tactic(auto, unfolding(checks::specs::Checks::verdict))]
    fn read_strings(self, file: &[u8], parameters: Parameters) -> Result<Layout, Refusal>
        requires { parameters.n ≤ 8 }
        ensures { reading result ≡ verdict (strings_checks file.now self.at parameters.n) (layout_from file.now self.at parameters) }
    {
        let lists = self.read_lists(file, parameters.n)?;
        let count = lists.next.read_words(file)?;
        let next = Cursor {
            at: lists.next.at + (4 + 2 * count),
        };
        Ok(Layout {
            parameters,
            lists,
            count,
            next,
        })
    }

    // The records of a sample: PM, XB and YB in either order, RW. Past the end of the file no mark is whole: 19 at the cursor.
    #[tactic(auto, unfolding(checks::specs::Checks::verdict, crate::specs::Records::layout_at, crate::specs::Records::layout_checks))]
    pub fn read_sample(self, file: &[u8]) -> Result<Layout, Refusal>
        ensures { reading result ≡ layout_read file.now self.at }
    {
        let parameters = self.read_parameters(file)?;
        let lists = Cursor { at: self.at + 6 };
        lists.read_strings(file, parameters)
    }
}

// `count` share words, in front of `shares`.
pub fn copy_shares(file: &[u8], at: usize, count: usize, shares: &mut [u16])
    requires { (at + 2 * count ≤ length file.now) × (count ≤ length shares.old) }
    ensures { shares.new ≡ overwrite shares.old 0 (words_from file.now at count) }
{
    for i in 0..count {
        shares[i] = number_at(file, at + 2 * i);
    }
}

// `count` random words, in front of `words`. A share has sixteen bits, and a word may come to have more: so these are two functions. Both lists are
// gone over by the index, since what lies behind an adapter of `iter_mut` has no proof.
pub fn copy_words(file: &[u8], at: usize, count: usize, words: &mut [Word])
    requires { (at + 2 * count ≤ length file.now) × (count ≤ length words.old) }
    ensures { words.new ≡ overwrite words.old 0 (words_from file.now at count) }
{
    for i in 0..count {
        words[i] = residue::from_u16(number_at(file, at + 2 * i));
    }
}
