// The samples of a lesson file, made and opened one after the other, and what the calls that write a text about them share.
#![tactic(auto)]

ghost use Rattle.std.specs.Prelude.{◌≡◌, take, ◌+◌, ◌≤◌, length};
ghost use Rattle.residue.specs.Residue.{reduce, total, EachBelow};
ghost use Rattle.checks.specs.Checks.{checked};
ghost use Rattle.checks.specs.Answers.{reading, outcome};
ghost use Rattle.binomial.specs.Signed.{centred_value};
ghost use Rattle.totals.specs.Sample.{sample_words};
ghost use Rattle.text.specs.Text.{HasRoom, Written};
ghost use Rattle.lesson_file.specs.Layouts.{WholeSample};
ghost use Rattle.lesson_samples.specs.Lesson.{record_of};
ghost use Rattle.lesson_samples.specs.Call.{sample_buffers, held, SameBuffers, call_checks};
ghost use Rattle.lesson_samples.specs.RefusalLine.{refusal_line};
ghost use Rattle.lesson_samples.specs.Steps.{SampleRoom, HasSampleRoom, sampled_at, sample_judged, next_sample};

use checks::{Reason, Refusal};
use lesson_file::{Cursor, Layout, Parameters};
use residue::Word;
use text::Writer;

// A sample that was made: its parameters, how many words it took, its centred value, and where the next one begins.
#[derive(Clone, Copy)]
pub struct Sampled {
    pub parameters: Parameters,
    pub used: usize,
    pub value: i32,
    pub next: Cursor,
}

// The buffers that samples are made in: random words, shares, and the work area.
#[derive(Drop)]
pub struct Buffers<'a> {
    pub words: &'a mut [Word],
    pub out: &'a mut [Word],
    pub work: &'a mut [Word],
}

impl<'a> Buffers<'a> {
    // The first n shares.
    pub fn shares(&self, n: usize) -> &[Word]
        requires { n ≤ length self.now.out.now }
        ensures { result.now ≡ take n self.now.out.now }
    {
        &self.out[..n]
    }
}

// The most bytes that a lesson file may have.
pub const FILE_LIMIT: usize = 60000;

// The record at which a refusal of the sampler is reported.
fn record_of(layout: Layout, code: u32) -> usize
    ensures { result ≡ record_of layout code }
{
    if code == u32::from(Reason::XWidth) {
        return layout.lists.x;
    }
    if code == u32::from(Reason::YWidth) {
        return layout.lists.y;
    }
    layout.lists.next.at
}

// The shares of the sample whose records lie there. RW's words, and no others, are lent to the sampler, which starts at the first of them: its
// end position is the number of the words that it used.
fn make_shares(
    file: &[u8],
    layout: Layout,
    words: &mut [Word],
    out: &mut [Word],
    work: &mut [Word],
) -> Result<usize, Refusal>
    requires { WholeSample file.now layout × SampleRoom (length words.old) (length out.old) (length work.old) }
    ensures { outcome result (sample_buffers words.new out.new work.new) ≡ sample_judged file.now (sample_buffers words.old out.old work.old) layout (sample_words layout.parameters.n layout.parameters.k) }
{
    let Parameters { n, k, q } = layout.parameters;
    let mut x = [0; 8];
    let mut y = [0; 8];
    lesson_file::copy_shares(file, layout.lists.x + 2, n, &mut x);
    lesson_file::copy_shares(file, layout.lists.y + 2, n, &mut y);
    lesson_file::copy_words(file, layout.lists.next.at + 4, layout.count, words);
    match sampler::sample(
        n,
        k,
        q,
        &x[..n],
        &y[..n],
        &words[..layout.count],
        0,
        out,
        work,
    ) {
        Ok(used) => Ok(used),
        Err(r) => checks::refuse(r.code, record_of(layout, r.code)),
    }
}

// The centred value of the residue that the shares hold. Neither call refuses.
fn open_sample(n: usize, q: Word, shares: &[Word]) -> i32
    requires { (2 ≤ n) × (n ≤ 8) × (3 ≤ q) × (length shares.now ≡ n) × EachBelow q shares.now }
    ensures { result ≡ centred_value q (reduce q (total shares.now)) }
{
    let Ok(residue) = masking::open_residue(n, q, shares) else {
        return 0;
    };
    binomial::centre(q, residue).unwrap_or(0)
}

// The sample whose records lie there.
fn make_sample(file: &[u8], layout: Layout, buffers: &mut Buffers<'_>) -> Result<Sampled, Refusal>
    requires { WholeSample file.now layout × HasSampleRoom buffers.old }
    ensures { (outcome result (held buffers.new) ≡ sample_judged file.now (held buffers.old) layout (sampled_at file.now layout)) × SameBuffers buffers.old buffers.new }
{
    let parameters = layout.parameters;
    let used = make_shares(
        file,
        layout,
        &mut buffers.words[..],
        &mut buffers.out[..],
        &mut buffers.work[..],
    )?;
    let value = open_sample(parameters.n, parameters.q, buffers.shares(parameters.n));
    Ok(Sampled {
        parameters,
        used,
        value,
        next: layout.next,
    })
}

// The sample at the cursor, whose shares stand in front of the output afterwards. A file that is too long is refused before any record is looked
// at.
pub fn next_sample(
    file: &[u8],
    cursor: Cursor,
    buffers: &mut Buffers<'_>,
) -> Result<Sampled, Refusal>
    requires { HasSampleRoom buffers.old }
    ensures { (outcome result (held buffers.new) ≡ next_sample file.now (held buffers.old) cursor.at) × SameBuffers buffers.old buffers.new }
{
    if FILE_LIMIT < file.len() {
        return checks::refuse(Reason::FileLength.into(), 0);
    }
    let layout = cursor.read_sample(file)?;
    make_sample(file, layout, buffers)
}

// Writes a refusal's line.
pub fn write_refusal(text: &mut Writer<'_>, refusal: Refusal)
    requires { HasRoom text.old (refusal_line refusal.code refusal.position) }
    ensures { Written text.old (refusal_line refusal.code refusal.position) text.new }
{
    text.bytes(b"refused");
    text.field(refusal.code as usize);
    text.field(refusal.position);
    text.bytes(b"\n");
}

// What a call that writes a text asks of its buffers.
#[tactic(auto, unfolding(checks::specs::Checks::verdict))]
pub fn check_buffers(
    room: usize,
    words: usize,
    out: usize,
    area: usize,
    text: usize,
) -> Result<(), Refusal>
    ensures { reading result ≡ checked (call_checks room words out area text) }
{
    if words < lesson_file::MOST_WORDS {
        return checks::refuse(Reason::WordCount.into(), 0);
    }
    if out < 8 {
        return checks::refuse(Reason::OutputRoom.into(), 0);
    }
    if text < room {
        return checks::refuse(Reason::OutputRoom.into(), 0);
    }
    if area < 8 {
        return checks::refuse(Reason::WorkRoom.into(), 0);
    }
    Ok(())
}
